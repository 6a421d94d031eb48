// An input of a program and a derivation.
ghost use Rattle.std.specs.Prelude.{◌<◌, ◌≤◌, ◌+◌, IfOk, length};
ghost use Rattle.pat_semantics_spec.specs.WellFormed.{WellFormed};
ghost use Rattle.pat_core.specs.Views.{program_view};
ghost use Rattle.pat_derivations.specs.Views.{derivation_view};
ghost use Rattle.pat_command_verify.specs.Allowed.{AllowedVerify, AnswersText, AnswersJudged};
ghost use Rattle.pat_limits.specs.Limits.{number_count};
ghost use Rattle.pat_input.specs.Inputs.{whole_limit};

use pat_core::Program;
use pat_deriv::read;
use pat_derivations::Derivation;
use pat_front::{Answer, FrontError, Verdict, accepted_answer, verdict_answer};
use pat_input_split::program_before;
use pat_judge::judge;
use pat_texts::TextError;
use std::alloc::{AllocError, Global};

/// What `verify` answers on these bytes.
pub fn answer_verify(alloc: Global, bytes: &[u8]) -> Result<Answer, AllocError>
    ensures { IfOk result (λ a. AllowedVerify bytes.now a.text.items a.status) }
{
    match program_before(alloc, bytes, b"%%derivation") {
        Ok((program, at)) => verify_program(alloc, &program, &bytes[at..], at as u32),
        Err(FrontError::Refused(verdict)) => verdict_answer(alloc, verdict),
        Err(FrontError::NoMemory) => Err(AllocError),
    }
}

// A program, and the text behind it, whose first byte has this offset.
fn verify_program(
    alloc: Global,
    program: &Program,
    text: &[u8],
    from: u32,
) -> Result<Answer, AllocError>
    requires well_formed { WellFormed (program_view program.now) }
    requires interfaces { length program.now.interfaces < number_count }
    requires room { from + length text.now ≤ whole_limit }
    ensures { IfOk result (λ a. AnswersText (program_view program.now) from text.now a.text.items a.status) }
{
    match read(alloc, program, text, from) {
        Ok(derivation) => judged(alloc, program, &derivation),
        Err(TextError::BadText(offset)) => verdict_answer(alloc, Verdict::BadText(offset)),
        Err(TextError::NoMemory) => Err(AllocError),
    }
}

fn judged(alloc: Global, program: &Program, derivation: &Derivation) -> Result<Answer, AllocError>
    requires { WellFormed (program_view program.now) }
    ensures { IfOk result (λ a. AnswersJudged (program_view program.now) (derivation_view derivation.now) a.text.items a.status) }
{
    match judge(alloc, program, derivation)? {
        None => accepted_answer(alloc),
        Some(found) => verdict_answer(alloc, Verdict::Rejected(found.node, found.rule)),
    }
}
