// The local steps of a turn.
ghost use Rattle.std.specs.Prelude.{◌≡◌, IfOk};
ghost use Rattle.pat_semantics_spec.specs.Orders.{IsOrdered};
ghost use Rattle.pat_core.specs.Views.{program_view};
ghost use Rattle.pat_machine_spec.specs.Commits.{IsLocalRun};
ghost use Rattle.pat_reduce.specs.Places.{IsPlace};
ghost use Rattle.pat_reduce.specs.Views.{config_view};
ghost use Rattle.pat_reduce.specs.threads.ThreadViews.{thread_view};
ghost use Rattle.pat_checkpoint_run.specs.Courses.{TakesLocals};

use crate::next::Turn;
use pat_reduce::{Config, StepError, ThreadState};
use pat_reduce_values::Executable;
use std::alloc::{AllocError, Global};

/// As many local steps of the thread as there are within the allowance; and how many they were.
pub fn take_locals(
    alloc: Global,
    code: &Executable,
    config: &mut Config,
    turn: Turn,
    allowance: u32,
) -> Result<u32, AllocError>
    requires ordered { IsOrdered (config_view config.old) }
    requires place { IsPlace config.old.threads turn.thread turn.place }
    ensures { IfOk result (λ n. TakesLocals (program_view code.now.program) allowance turn n config.old config.new) }
{
    run_locally(
        alloc,
        code,
        &mut config.threads.items[turn.place].1,
        allowance,
    )
}

// As many local steps as there are within the allowance, in place; and how many they were. The machine takes them alike, of threads in a
// store of its own.
fn run_locally(
    alloc: Global,
    code: &Executable,
    state: &mut ThreadState,
    allowance: u32,
) -> Result<u32, AllocError>
    ensures { IfOk result (λ n. IsLocalRun (program_view code.now.program) allowance (thread_view state.old) n (thread_view state.new)) }
{
    for steps in 0..allowance {
        match state.step_locally(alloc, code) {
            Ok(()) => {}
            Err(StepError::Disabled) => return Ok(steps),
            Err(StepError::NoMemory) => return Err(AllocError),
        }
    }
    Ok(allowance)
}
