// Commits.
ghost use Rattle.std.specs.Prelude.{◌≡◌, ◌<◌, Some, None, IfOk, OnOk, OnErr, IfErr, IsTrue, vec_len, vec_capacity};
ghost use Rattle.pat_semantics_spec.specs.Configs.{Config as ConfigOf};
ghost use Rattle.pat_core.specs.Views.{program_view};
ghost use Rattle.pat_reduce.specs.threads.ThreadViews.{thread_view};
ghost use Rattle.pat_machine_spec.specs.Commits.{IsLocalRun};
ghost use Rattle.pat_machine_steps.specs.shared_steps.Taking.{taken_act, taken_message};
ghost use Rattle.pat_machine_steps.specs.shared_steps.Settling.{IsSettled, StandsStill};
ghost use Rattle.pat_machine.specs.Parted.{shown, IsKept};
ghost use Rattle.pat_machine.specs.Entering.{CanEnter, ListsTop, WentFrom};
ghost use Rattle.pat_machine.specs.Gives.{IsLent, Committed, CommitGives};

use crate::entry::{note, steps_of, take_back};
use crate::job::{CommitRefused, Job, Receipt};
use crate::parts::Parts;
use pat_machine_steps::{
    IndexedConfig, Taken, act_of, list_top, note_threads, share, share_in_place,
};
use pat_machine_threads::{LocalRun, Settled, is_top, settle_top};
use pat_reduce::{Entry, guard_of};
use pat_sequences::let_go;
use std::alloc::{AllocError, Global};

impl Parts {
    /// Commits a job: its local steps, and then the shared step that is open.
    pub fn commit(&mut self, worker: u32, job: Job, run: LocalRun) -> Result<Receipt, CommitRefused>
        requires kept { IsKept self.old }
        requires run { IsLocalRun (program_view self.old.code.program) job.allowance (thread_view run.start) run.steps
            (thread_view run.end) }
        ensures kept { IsKept self.new }
        ensures commit { CommitGives (shown self.old) worker job result (shown self.new) }
    {
        if !self.is_lent(job) {
            let_go(run);
            return Err(CommitRefused::NotOut(job));
        }
        match self.settle(job, run) {
            Ok(settled) => match self.finish(worker, job, settled) {
                Ok(receipt) => Ok(receipt),
                Err(AllocError) => Err(CommitRefused::NoMemory(job)),
            },
            Err(AllocError) => Err(CommitRefused::NoMemory(job)),
        }
    }

    // The worker's end state where it began with the top of the kept one, and else local steps taken inside.
    fn settle(&self, job: Job, run: LocalRun) -> Result<Settled, AllocError>
        requires kept { IsKept self.now }
        requires lent { IsLent (shown self.now) job }
        requires run { IsLocalRun (program_view self.now.code.program) job.allowance (thread_view run.start) run.steps
            (thread_view run.end) }
        ensures { IfOk result (IsSettled (program_view self.now.code.program) self.now.state.config job.thread job.allowance) }
    {
        match self.state.thread(job.thread) {
            Some(kept) => {
                if is_top(kept, &run.start, job.allowance) {
                    Ok(ended(run, job.allowance))
                } else {
                    let_go(run);
                    settle_top(self.alloc, &self.code, kept, job.allowance)
                }
            }
            // A thread that is out is there.
            None => unreachable!(),
        }
    }

    /// Commits a job that is out, with its local steps taken inside. An error changes nothing.
    pub fn commit_inside(&mut self, worker: u32, job: Job) -> Result<Receipt, AllocError>
        requires kept { IsKept self.old }
        requires lent { IsLent (shown self.old) job }
        ensures kept { IsKept self.new }
        ensures ok { IfOk result (λ r. Committed (shown self.old) worker job r (shown self.new)) }
        ensures err { OnErr result (shown self.new ≡ shown self.old) }
    {
        if self.stands_at_guard(job.thread) {
            return self.finish_in_place(worker, job);
        }
        let settled = self.run_inside(job)?;
        self.finish(worker, job, settled)
    }

    // Whether the thread stands at a guard: then it has no local step.
    fn stands_at_guard(&self, thread: u32) -> bool
        ensures { IsTrue result → StandsStill (program_view self.now.code.program) self.now.state.config thread }
    {
        match self.state.thread(thread) {
            Some(kept) => guard_of(&self.code, &kept.control).is_some(),
            None => false,
        }
    }

    // Local steps taken inside, from the top of the kept state.
    fn run_inside(&self, job: Job) -> Result<Settled, AllocError>
        requires kept { IsKept self.now }
        requires lent { IsLent (shown self.now) job }
        ensures { IfOk result (IsSettled (program_view self.now.code.program) self.now.state.config job.thread job.allowance) }
    {
        match self.state.thread(job.thread) {
            Some(kept) => settle_top(self.alloc, &self.code, kept, job.allowance),
            // A thread that is out is there.
            None => unreachable!(),
        }
    }

    // Ends a commit after the local steps. An error changes nothing.
    fn finish(&mut self, worker: u32, job: Job, settled: Settled) -> Result<Receipt, AllocError>
        requires kept { IsKept self.old }
        requires lent { IsLent (shown self.old) job }
        requires settled { IsSettled (program_view self.old.code.program) self.old.state.config job.thread job.allowance settled }
        ensures kept { IsKept self.new }
        ensures ok { IfOk result (λ r. Committed (shown self.old) worker job r (shown self.new)) }
        ensures err { OnErr result (shown self.new ≡ shown self.old) }
    {
        self.prepare(job.thread, settled.gone)?;
        let newcomer = self.state.threads_made();
        let steps = settled.steps;
        let mut taken = None;
        share(
            self.alloc,
            &self.code,
            &mut self.state,
            &mut self.names,
            self.limit,
            job.thread,
            job.allowance,
            settled,
            &mut taken,
        )?;
        Ok(self.enter(worker, job, steps, newcomer, &taken))
    }

    // Commits a job whose thread has no local step, where it stands. An error changes nothing.
    fn finish_in_place(&mut self, worker: u32, job: Job) -> Result<Receipt, AllocError>
        requires kept { IsKept self.old }
        requires lent { IsLent (shown self.old) job }
        requires still { StandsStill (program_view self.old.code.program) self.old.state.config job.thread }
        ensures kept { IsKept self.new }
        ensures ok { IfOk result (λ r. Committed (shown self.old) worker job r (shown self.new)) }
        ensures err { OnErr result (shown self.new ≡ shown self.old) }
    {
        self.prepare(job.thread, 0)?;
        let newcomer = self.state.threads_made();
        let mut taken = None;
        share_in_place(
            self.alloc,
            &self.code,
            &mut self.state,
            &mut self.names,
            self.limit,
            job.thread,
            &mut taken,
        )?;
        Ok(self.enter(worker, job, 0, newcomer, &taken))
    }

    // Room for what the end of a commit may add, and a list of what the top of the thread names. An error changes nothing.
    fn prepare(&mut self, thread: u32, frames: u32) -> Result<(), AllocError>
        requires { IsKept self.old }
        ensures kept { IsKept self.new }
        ensures same { shown self.new ≡ shown self.old }
        ensures room { OnOk result (CanEnter self.new) }
        ensures place { OnOk result (vec_len self.new.names.times < vec_capacity self.new.names.times) }
        ensures listed { OnOk result (ListsTop self.new.state.config thread frames self.new.named.items) }
    {
        self.history.reserve(1)?;
        self.out.reserve(1)?;
        self.waits.reserve()?;
        self.names.reserve()?;
        list_named(&self.state, thread, frames, &mut self.named)
    }

    // Enters a commit whose steps were taken.
    fn enter(
        &mut self,
        worker: u32,
        job: Job,
        steps: u32,
        newcomer: u32,
        taken: &Option<Taken>,
    ) -> Receipt
        requires room { CanEnter self.old }
        requires went { (c : ConfigOf) × WentFrom self.old c worker job steps newcomer (taken_act taken.now) (taken_message taken.now) }
        ensures kept { IsKept self.new }
        ensures committed { (c : ConfigOf) → WentFrom self.old c worker job steps newcomer (taken_act taken.now) (taken_message taken.now)
            → Committed (record (shown self.old) { config = c }) worker job result (shown self.new) }
    {
        note_threads(
            &mut self.waits,
            &self.code,
            &self.state,
            &self.names,
            job.thread,
            newcomer,
            self.named.as_slice(),
            taken,
        );
        let shared = act_of(taken);
        let entry = Entry {
            worker,
            thread: job.thread,
            local: steps,
            shared,
        };
        take_back(&mut self.out, job.thread, shared);
        self.left += job.allowance as u64 - steps_of(&entry);
        self.lent -= job.allowance as u64;
        let index = note(&mut self.history, entry);
        Receipt { index, entry }
    }
}

// Lists the mailboxes that the top of a thread names, and no others.
fn list_named(
    state: &IndexedConfig,
    thread: u32,
    most: u32,
    to: &mut Vec<u32>,
) -> Result<(), AllocError>
    ensures { OnOk result (ListsTop state.now.config thread most to.new.items) }
{
    to.clear();
    match state.thread(thread) {
        Some(kept) => list_top(kept, most, to),
        None => Ok(()),
    }
}

fn ended(run: LocalRun, gone: u32) -> Settled
    ensures { result ≡ record { end = run.end; gone = gone; steps = run.steps } }
{
    let LocalRun { start, end, steps } = run;
    let_go(start);
    Settled { end, gone, steps }
}
