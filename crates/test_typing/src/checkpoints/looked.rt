// What the text of a checkpoint comes to.
ghost use Rattle.pat_semantics_spec.specs.WellFormed.{WellFormed};
ghost use Rattle.pat_core.specs.Views.{program_view};

use pat_checkpoint_checks::{CheckError, examine};
use pat_checkpoint_data::Checkpoint;
use pat_checkpoint_text::read;
use pat_core::Program;
use pat_derivations::Derivation;
use pat_judge::judge;
use pat_texts::TextError;
use std::alloc::{AllocError, Global};
use std::process::Abort;

/// Where the text isn't read, or the first rule that its checkpoint breaks.
pub fn answer(
    rt: &impl Abort,
    alloc: Global,
    program: &Program,
    derivation: &Derivation,
    text: &[u8],
) -> Result<String, AllocError>
    requires { WellFormed (program_view program.now) }
{
    if text.len() > 1_000_000 || program.interfaces.len() > 1_000_000 {
        panic!(rt; "too long");
    }
    match read(alloc, program, text, 0) {
        Ok(checkpoint) => broken(alloc, program, derivation, &checkpoint),
        Err(TextError::BadText(at)) => format!(in alloc; "bad text at {at}"),
        Err(TextError::NoMemory) => Err(AllocError),
    }
}

fn broken(
    alloc: Global,
    program: &Program,
    derivation: &Derivation,
    checkpoint: &Checkpoint,
) -> Result<String, AllocError>
    requires { WellFormed (program_view program.now) }
{
    match judge(alloc, program, derivation)? {
        Some(rejection) => format!(in alloc; "{} {:?}", rejection.node, rejection.rule),
        None => match examine(alloc, program, derivation, checkpoint) {
            Ok(()) => String::from_str(alloc, "checked"),
            Err(CheckError::Bad(rule)) => format!(in alloc; "{rule:?}"),
            Err(CheckError::NoMemory) => Err(AllocError),
        },
    }
}
