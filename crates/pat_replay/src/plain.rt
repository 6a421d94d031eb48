// Steps of a plain configuration, whose threads stand in order of number.
ghost use Rattle.std.specs.Prelude.{◌≡◌};
ghost use Rattle.pat_semantics_spec.specs.Orders.{IsOrdered};
ghost use Rattle.pat_semantics_spec.specs.Steps.{step as after_step};
ghost use Rattle.pat_core.specs.Views.{program_view};
ghost use Rattle.pat_reduce_values.specs.Results.{StepGives};
ghost use Rattle.pat_reduce.specs.Views.{config_view, step_view};
ghost use Rattle.pat_replay.specs.Replays.{HasTaken, LocalsGive};

use crate::places::place_among;
use pat_reduce::{Act, Config, Step, StepError};
use pat_reduce_values::Executable;
use std::alloc::Global;

/// So many local steps of a thread.
pub fn run_locals(
    alloc: Global,
    code: &Executable,
    config: &mut Config,
    thread: u32,
    count: u32,
) -> Result<(), StepError>
    requires taken { HasTaken (config_view config.old) 4294967294 }
    requires ordered { IsOrdered (config_view config.old) }
    ensures { LocalsGive (program_view code.now.program) (config_view config.old) thread count (config_view config.new) result }
{
    let step = Step {
        thread,
        act: Act::Local,
    };
    for taken in 0..count {
        match take(alloc, code, config, &step) {
            Ok(()) => {}
            Err(error) => return Err(error),
        }
    }
    Ok(())
}

/// A step of a configuration in order.
pub fn take(
    alloc: Global,
    code: &Executable,
    config: &mut Config,
    step: &Step,
) -> Result<(), StepError>
    requires taken { HasTaken (config_view config.old) 4294967294 }
    requires ordered { IsOrdered (config_view config.old) }
    ensures { StepGives config_view (after_step (program_view code.now.program) (config_view config.old) (step_view step.now))
        config.old config.new result }
{
    match place_among(config.threads.as_slice(), step.thread) {
        Some(place) => config.step_at_place(alloc, code, step, place),
        None => Err(StepError::Disabled),
    }
}
