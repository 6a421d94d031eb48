// A program with the types that its derivation gives: their data.
ghost use Rattle.pat_core.specs.Views.{program_view};
ghost use Rattle.pat_checkpoint_parts.specs.Tables.{AreLets};

use crate::lets::Binding;
use pat_core::Program;
use pat_derivations::Derivation;
use pat_sequences::Sequence;

/// A program with its derivation, and the `let` of each body.
#[derive(Drop)]
pub struct Typing<'a> {
    pub program: &'a Program,
    pub derivation: &'a Derivation,
    pub(crate) lets: Sequence<Option<Binding>>,
    pub ghost lets_are: { AreLets (program_view program.now) lets },
}
