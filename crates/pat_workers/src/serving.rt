// One job of a worker.
ghost use Rattle.std.specs.Prelude.{◌≡◌, ◌<◌, false, vec_len, vec_capacity, IfOk, OnOk, OnErr};
ghost use Rattle.pat_core.specs.Views.{program_view};
ghost use Rattle.pat_reduce.specs.threads.ThreadViews.{thread_view};
ghost use Rattle.pat_machine_spec.specs.Commits.{IsLocalRun};
ghost use Rattle.pat_workers.specs.Workers.{IsOfProgram, IsRunOf, HasReceipts, WasCommitted, WentBack};

use crate::turns::{commit_in_turn, give_back_in_turn};
use pat_machine::{CommitRefused, Job, Machine, Receipt};
use pat_machine_threads::{LocalRun, local_run};
use pat_ports::Gate;
use pat_reduce::ThreadState;
use pat_reduce_values::Executable;
use pat_turn::{Pass, Turn};
use std::alloc::{AllocError, Global};
use std::sync::Wait;

// The least number of local steps of a long job: they take longer than to hand the turn to another thread.
const LONG: u32 = 64;

/// A worker: its pass, its receipts in order, and how many jobs it has served since the last that was long.
#[derive(Drop)]
pub struct Worker {
    pub pass: Pass<Machine>,
    pub receipts: Vec<Receipt>,
    pub short_jobs: u32,
}

/// A job that was taken, and the state that it begins with.
#[derive(Drop)]
pub struct Task {
    pub job: Job,
    pub state: ThreadState,
}

/// Takes a job's local steps outside the turn, and commits it between the two calls of the gate. The receipt goes behind the others.
/// Where memory runs out the job goes back, so that nobody waits for it.
pub fn serve<R: Wait, G: Gate>(
    rt: &R,
    alloc: Global,
    turn: &Turn<Machine>,
    code: &Executable,
    gate: &G,
    worker: &mut Worker,
    task: Task,
) -> Result<(), AllocError>
    requires turn { worker.old.pass.turn ≡ turn.now.id }
    requires free { worker.old.pass.holds ≡ false }
    requires code { IsOfProgram worker.old.pass.name code.now.program }
    requires receipts { HasReceipts worker.old }
    ensures pass { worker.new.pass ≡ record worker.old.pass { seen = worker.new.pass.seen } }
    ensures receipts { HasReceipts worker.new }
    ensures done { OnOk result (WasCommitted worker.old.pass worker.new.pass.seen task.job) }
    ensures back { OnErr result (WentBack worker.old.pass worker.new.pass.seen task.job) }
{
    let job = task.job;
    match prepare(alloc, code, &mut worker.receipts, task) {
        Ok(run) => commit(rt, turn, gate, worker, job, run),
        Err(AllocError) => {
            give_back_in_turn(rt, turn, &mut worker.pass, job);
            Err(AllocError)
        }
    }
}

// The local steps of a job, and room for its receipt.
fn prepare(
    alloc: Global,
    code: &Executable,
    receipts: &mut Vec<Receipt>,
    task: Task,
) -> Result<LocalRun, AllocError>
    ensures run { IfOk result (λ r. IsLocalRun (program_view code.now.program) task.job.allowance (thread_view r.start) r.steps
        (thread_view r.end)) }
    ensures receipts { receipts.new.items ≡ receipts.old.items }
    ensures room { OnOk result (vec_len receipts.new < vec_capacity receipts.new) }
{
    receipts.reserve(1)?;
    let Task { job, state } = task;
    match local_run(alloc, code, state, job.allowance) {
        Ok(run) => Ok(run),
        Err(_) => Err(AllocError),
    }
}

// Commits a job between the two calls of the gate. Commits are counted from 1.
fn commit<R: Wait, G: Gate>(
    rt: &R,
    turn: &Turn<Machine>,
    gate: &G,
    worker: &mut Worker,
    job: Job,
    run: LocalRun,
) -> Result<(), AllocError>
    requires turn { worker.old.pass.turn ≡ turn.now.id }
    requires free { worker.old.pass.holds ≡ false }
    requires run { IsRunOf worker.old.pass.name job run }
    requires room { vec_len worker.old.receipts < vec_capacity worker.old.receipts }
    requires receipts { HasReceipts worker.old }
    ensures pass { worker.new.pass ≡ record worker.old.pass { seen = worker.new.pass.seen } }
    ensures receipts { HasReceipts worker.new }
    ensures done { OnOk result (WasCommitted worker.old.pass worker.new.pass.seen job) }
    ensures back { OnErr result (WentBack worker.old.pass worker.new.pass.seen job) }
{
    let number = worker.pass.number();
    let call = worker.receipts.len() as u64 + 1;
    worker.short_jobs = if run.steps < LONG {
        worker.short_jobs.saturating_add(1)
    } else {
        0
    };
    gate.before(number, call);
    let result = commit_in_turn(rt, turn, &mut worker.pass, job, run);
    gate.after(number, call);
    match result {
        Ok(receipt) => {
            worker.receipts.push_reserved(receipt);
            Ok(())
        }
        Err(error) => match error {
            // Nobody else has the job, so this doesn't come; if it did, the job would be done with.
            CommitRefused::NotOut(_) => Ok(()),
            CommitRefused::NoMemory(_) => Err(AllocError),
        },
    }
}
