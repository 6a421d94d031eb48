// The run that goes on from the checkpoint of an input.
ghost use Rattle.std.specs.Prelude.{◌≤◌, IfOk};
ghost use Rattle.pat_command_resume.specs.Allowed.{AllowedResume};
ghost use Rattle.pat_limits.specs.Limits.{most_steps};

use crate::running::go_on;
use pat_checkpoint_input::checked_bytes;
use pat_checkpoint_laws::checked_laws;
use pat_front::{Answer, FrontError, verdict_answer};
use std::alloc::{AllocError, Global};

/// What `resume` answers on these bytes, where the run that goes on may take so many steps.
pub fn answer_resume(alloc: Global, steps: u32, bytes: &[u8]) -> Result<Answer, AllocError>
    requires { steps ≤ most_steps }
    ensures { IfOk result (λ a. AllowedResume steps bytes.now a.text.items a.status) }
{
    checked_laws();
    match checked_bytes(alloc, bytes) {
        Ok(checked) => go_on(alloc, steps, checked.program, checked.checkpoint),
        Err(FrontError::Refused(verdict)) => verdict_answer(alloc, verdict),
        Err(FrontError::NoMemory) => Err(AllocError),
    }
}
