// A run by workers.
ghost use Rattle.std.specs.Prelude.{◌<◌, ◌≤◌, IfOk};
ghost use Rattle.pat_workers.specs.Runs.{RunGives};
ghost use Rattle.pat_limits.specs.Limits.{most_messages, most_steps, most_workers};

use crate::finishing::{Finished, finish, part};
use crate::working::work_all;
use pat_machine::Machine;
use pat_ports::Gate;
use pat_reduce_values::Executable;
use pat_turn::Turn;
use pat_typed_program::Accepted;
use std::alloc::{AllocError, Global};
use std::sync::Wait;
use std::thread::Threads;

/// Runs the program from its start by so many workers, with so many steps and at most so many pending messages. The workers read one
/// copy of the program. Each passes the gate before and after each of its commits. It may wait.
pub fn run<R: Threads + Wait + Sync, G: Gate>(
    rt: &R,
    alloc: Global,
    accepted: Accepted,
    workers: u32,
    steps: u64,
    messages: u32,
    gate: &G,
) -> Result<Finished, AllocError>
    requires workers { (0 < workers) × (workers ≤ most_workers) }
    requires steps { steps ≤ most_steps }
    requires messages { (0 < messages) × (messages ≤ most_messages) }
    ensures { IfOk result (RunGives accepted workers steps messages) }
{
    let program = accepted.into_program();
    let code = Executable::new(alloc, program.copy(alloc)?)?;
    let machine = Machine::new(alloc, Accepted::of(program), steps, messages)?;
    let (turn, passes) = Turn::new(alloc, machine, workers)?;
    let ended = work_all(rt, alloc, &turn, &code, gate, passes)?;
    let (passes, receipts) = part(alloc, ended)?;
    finish(turn.close(passes), receipts)
}
