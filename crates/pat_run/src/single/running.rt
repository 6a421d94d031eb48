// A machine that is driven from the start of its program.
ghost use Rattle.std.specs.Prelude.{◌<◌, ◌≤◌, IfOk, Some};
ghost use Rattle.pat_machine.specs.Gives.{IsOver, OutcomeGives};
ghost use Rattle.pat_run.specs.single.Runs.{RunGives};
ghost use Rattle.pat_limits.specs.Limits.{most_messages, most_steps};

use pat_machine::{Machine, Outcome};
use pat_typed_program::Accepted;
use std::alloc::{AllocError, Global};

/// What a run came to.
#[derive(Drop)]
pub struct Finished {
    pub machine: Machine,
    pub outcome: Outcome,
}

/// Runs the program from its start, with so many steps and at most so many pending messages, by jobs of worker 0, one ready thread
/// after another.
pub fn run(
    alloc: Global,
    accepted: Accepted,
    steps: u64,
    messages: u32,
) -> Result<Finished, AllocError>
    requires steps { steps ≤ most_steps }
    requires some { 0 < messages }
    requires messages { messages ≤ most_messages }
    ensures { IfOk result (RunGives accepted steps messages) }
{
    let mut machine = Machine::new(alloc, accepted, steps, messages)?;
    machine.run(0)?;
    let outcome = outcome_of(&machine);
    Ok(Finished { machine, outcome })
}

// The outcome of a machine that was driven.
fn outcome_of(machine: &Machine) -> Outcome
    requires { IsOver machine.now }
    ensures { OutcomeGives machine.now (Some result) }
{
    match machine.outcome() {
        Some(outcome) => outcome,
        // Nobody is out, and nothing can be taken.
        None => unreachable!(),
    }
}
