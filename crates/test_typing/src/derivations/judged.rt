// What a program and the text of a derivation come to.
ghost use Rattle.pat_semantics_spec.specs.WellFormed.{WellFormed};
ghost use Rattle.pat_core.specs.Views.{program_view};

use crate::checking::check;
use pat_core::Program;
use pat_deriv::{read, write};
use pat_derivations::Derivation;
use pat_judge::judge;
use pat_texts::TextError;
use std::alloc::{AllocError, Global};
use std::process::Abort;

/// What the judge says of a derivation.
pub fn judged(
    alloc: Global,
    program: &Program,
    derivation: &Derivation,
) -> Result<String, AllocError>
    requires { WellFormed (program_view program.now) }
{
    match judge(alloc, program, derivation)? {
        None => String::from_str(alloc, "valid"),
        Some(rejection) => format!(in alloc; "{} {:?}", rejection.node, rejection.rule),
    }
}

/// What the text of a derivation comes to: where it isn't spelled, or what the judge says.
pub fn answer(
    rt: &impl Abort,
    alloc: Global,
    program: &Program,
    text: &[u8],
) -> Result<String, AllocError>
    requires { WellFormed (program_view program.now) }
{
    if text.len() > 1_000_000 || program.interfaces.len() > 1_000_000 {
        panic!(rt; "too long");
    }
    match read(alloc, program, text, 0) {
        Ok(derivation) => {
            let written = write(alloc, program, &derivation)?;
            check(rt, written.as_slice() == text);
            judged(alloc, program, &derivation)
        }
        Err(TextError::BadText(at)) => format!(in alloc; "bad text at {at}"),
        Err(TextError::NoMemory) => Err(AllocError),
    }
}
