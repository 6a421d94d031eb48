// Programs of texts.
ghost use Rattle.std.specs.Prelude.{ℕ, List};
ghost use Rattle.pat_core.specs.Views.{program_view};
ghost use Rattle.pat_semantics_spec.specs.WellFormed.{WellFormed};
ghost use Rattle.pat_type_system_spec.specs.Typings.{IsTypable};
ghost use Rattle.pat_typecheck.specs.Checks.{IsChecked};

use pat_core::Program;
use pat_derivations::Derivation;
use pat_input::lex_bytes;
use pat_sequences::let_go;
use pat_typecheck::{Checked, check_input};
use pat_typed_program::Accepted;
use std::alloc::{AllocError, Global};

// The program of the text, if it is accepted.
pub fn accepted(alloc: Global, text: &[u8]) -> Result<Option<Accepted>, AllocError> {
    let input = lex_bytes(alloc, text)?;
    let found = check_input(alloc, input)?;
    Ok(accepted_of(found))
}

fn accepted_of(found: Checked) -> Option<Accepted>
    requires { (bytes : List ℕ) × IsChecked bytes found }
{
    match found {
        Checked::Accepted(program, derivation) => Some(accepted_by(program, derivation)),
        Checked::Refused(_) => None,
    }
}

fn accepted_by(program: Program, derivation: Derivation) -> Accepted
    requires well { WellFormed (program_view program) }
    requires typable { IsTypable (program_view program) }
{
    let_go(derivation);
    Accepted::of(program)
}
