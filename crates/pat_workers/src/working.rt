// What a worker does, and all of them.
ghost use Rattle.std.specs.Prelude.{◌≡◌, ℕ, ◌<◌, false, length, slice_index_or, IfOk};
ghost use Rattle.std.specs.List.{All};
ghost use Rattle.std.specs.Thread.{IsSync};
ghost use Rattle.pat_machine.specs.Shown.{Shown};
ghost use Rattle.pat_workers.specs.turns.Holds.{IsHold, TakingGives};
ghost use Rattle.pat_workers.specs.Workers.{IsOfProgram, IsReady, HasReceipts, IsRound, IsWorked};

use crate::serving::{Task, Worker, serve};
use crate::turns::{Taken, take_in_turn};
use pat_machine::Machine;
use pat_ports::Gate;
use pat_reduce_values::Executable;
use pat_turn::{Pass, Turn};
use std::alloc::{AllocError, Global};
use std::sync::Wait;
use std::thread;
use std::thread::Threads;

// Serves one job after another, until the run is at an outcome or memory runs out.
fn work<R: Wait, G: Gate>(
    rt: &R,
    alloc: Global,
    turn: &Turn<Machine>,
    code: &Executable,
    gate: &G,
    pass: Pass<Machine>,
) -> Worker
    requires { IsReady turn.now.id code.now.program pass }
    ensures { IsWorked pass result }
{
    let mut worker = Worker {
        pass,
        receipts: Vec::new(alloc),
        short_jobs: 0,
    };
    for _ in rt.forever() {
        if !work_once(rt, alloc, turn, code, gate, &mut worker) {
            return worker;
        }
    }
    // The loop has no other end.
    unreachable!()
}

// So many short jobs one behind the other, and the worker parks: where jobs are short, each of several workers would wait longer for
// the turn than work.
const ENOUGH: u32 = 8;

// Serves one job, if there is one, and parks where jobs are short; rests, where jobs are out and nothing can be taken. Whether the worker
// goes on.
fn work_once<R: Wait, G: Gate>(
    rt: &R,
    alloc: Global,
    turn: &Turn<Machine>,
    code: &Executable,
    gate: &G,
    worker: &mut Worker,
) -> bool
    requires turn { worker.old.pass.turn ≡ turn.now.id }
    requires free { worker.old.pass.holds ≡ false }
    requires code { IsOfProgram worker.old.pass.name code.now.program }
    requires receipts { HasReceipts worker.old }
    ensures pass { worker.new.pass ≡ record worker.old.pass { seen = worker.new.pass.seen } }
    ensures receipts { HasReceipts worker.new }
    ensures round { IsRound worker.old.pass worker.new.pass.seen result }
{
    match take(rt, turn, worker) {
        Taken::Job(job, state) => {
            match serve(rt, alloc, turn, code, gate, worker, Task { job, state }) {
                Ok(()) => {
                    if worker.short_jobs >= ENOUGH {
                        turn.park(rt, &mut worker.pass);
                    }
                    true
                }
                Err(AllocError) => false,
            }
        }
        Taken::Nothing => {
            turn.rest(rt, &mut worker.pass);
            true
        }
        Taken::Over | Taken::NoMemory => false,
    }
}

// Takes a job. Nothing is added to the history. The worker is busy where its last job was long.
fn take<R: Wait>(rt: &R, turn: &Turn<Machine>, worker: &mut Worker) -> Taken
    requires turn { worker.old.pass.turn ≡ turn.now.id }
    requires free { worker.old.pass.holds ≡ false }
    requires receipts { HasReceipts worker.old }
    ensures pass { worker.new.pass ≡ record worker.old.pass { seen = worker.new.pass.seen } }
    ensures receipts { HasReceipts worker.new }
    ensures taken { (found left : Shown) × IsHold worker.old.pass worker.new.pass.seen found left × TakingGives found result left }
{
    let is_busy = worker.short_jobs == 0;
    take_in_turn(rt, turn, &mut worker.pass, is_busy)
}

/// Each pass in a thread of its own; where none can be made, one after another.
pub fn work_all<R: Threads + Wait + Sync, G: Gate>(
    rt: &R,
    alloc: Global,
    turn: &Turn<Machine>,
    code: &Executable,
    gate: &G,
    passes: Vec<Pass<Machine>>,
) -> Result<Vec<Worker>, AllocError>
    requires { All (λ p. IsReady turn.now.id code.now.program p) passes.items }
    ensures len { IfOk result (λ v. length v.items ≡ length passes.items) }
    ensures each { IfOk result (λ v. (i : ℕ) (w : _) → i < length passes.items
        → IsWorked (slice_index_or passes.items i w.pass) (slice_index_or v.items i w)) }
{
    thread::map_vec(
        rt,
        passes,
        &|pass: Pass<Machine>| -> Worker
            requires { IsSync G.row × IsReady turn.now.id code.now.program pass }
            ensures { IsWorked pass result }
        { work(rt, alloc, turn, code, gate, pass) },
    )
}
