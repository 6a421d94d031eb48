// What a command answers, and the answer that each of them may give: the line of a verdict.
ghost use Rattle.std.specs.Prelude.{ℕ, List, IfOk};
ghost use Rattle.pat_front.specs.Texts.{Explains};
ghost use Rattle.pat_front.specs.exit_answers.Answers.{SaysAccepted, SaysVerdict, SaysVerdictWith, Refuses};

use crate::exit_answers::Status;
use crate::verdict::{verdict_line, verdict_line_with};
use crate::{FrontError, Verdict};
use std::alloc::{AllocError, Global};

/// A text, and the status with which the call ends where all of it could be written.
#[derive(Drop)]
pub struct Answer {
    pub text: Vec<u8>,
    pub status: Status,
}

/// The line that refuses a text, where memory doesn't run out.
pub fn refused(alloc: Global, error: FrontError) -> Result<Answer, AllocError>
    ensures { (bytes : List ℕ) → Explains bytes error → IfOk result (λ a. Refuses bytes a.text.items a.status) }
{
    match error {
        FrontError::Refused(verdict) => verdict_answer(alloc, verdict),
        FrontError::NoMemory => Err(AllocError),
    }
}

/// The line that says a verdict.
pub fn verdict_answer(alloc: Global, verdict: Verdict) -> Result<Answer, AllocError>
    ensures { IfOk result (λ a. SaysVerdict verdict a.text.items a.status) }
{
    Ok(Answer {
        text: verdict_line(alloc, verdict)?,
        status: Status::Refused(verdict),
    })
}

/// The line that says a verdict, with more words behind it.
pub fn verdict_answer_with(
    alloc: Global,
    verdict: Verdict,
    more: &[u8],
) -> Result<Answer, AllocError>
    ensures { IfOk result (λ a. SaysVerdictWith verdict more.now a.text.items a.status) }
{
    Ok(Answer {
        text: verdict_line_with(alloc, verdict, more)?,
        status: Status::Refused(verdict),
    })
}

/// The line that accepts.
pub fn accepted_answer(alloc: Global) -> Result<Answer, AllocError>
    ensures { IfOk result (λ a. SaysAccepted a.text.items a.status) }
{
    Ok(Answer {
        text: b"accepted\n".to_vec(alloc)?,
        status: Status::Ok,
    })
}
