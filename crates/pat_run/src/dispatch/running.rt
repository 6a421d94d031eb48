// Two ways to run a program with options.
ghost use Rattle.std.specs.Prelude.{IfOk};
ghost use Rattle.pat_run.specs.options.Options.{IsWithin};
ghost use Rattle.pat_run.specs.single.Runners.{RunGives};

use crate::options::RunOptions;
use crate::single::Finished;
use pat_ports::Gate;
use pat_typed_program::Accepted;
use std::alloc::{AllocError, Global};
use std::sync::Wait;
use std::thread::Threads;

/// Runs the program from its start by worker 0 alone, however many workers there may be. It waits for nobody.
pub fn run_alone(
    alloc: Global,
    accepted: Accepted,
    options: RunOptions,
) -> Result<Finished, AllocError>
    requires { IsWithin options }
    ensures { IfOk result (RunGives accepted options) }
{
    crate::single::run(alloc, accepted, options.steps as u64, options.messages)
}

/// Runs the program from its start by as many workers as the options say, each in a thread of its own and past the gate; one worker
/// runs on the calling thread and passes no gate. It may wait.
pub fn run_in_threads<R: Threads + Wait + Sync, G: Gate>(
    rt: &R,
    alloc: Global,
    accepted: Accepted,
    options: RunOptions,
    gate: &G,
) -> Result<Finished, AllocError>
    requires { IsWithin options }
    ensures { IfOk result (RunGives accepted options) }
{
    let RunOptions {
        workers,
        steps,
        messages,
    } = options;
    if workers == 1 {
        return run_alone(alloc, accepted, options);
    }
    let finished = pat_workers::run(rt, alloc, accepted, workers, steps as u64, messages, gate)?;
    Ok(Finished {
        machine: finished.machine,
        outcome: finished.outcome,
    })
}
