// What a worker does to a machine while it holds it.
ghost use Rattle.std.specs.Prelude.{◌≡◌};
ghost use Rattle.pat_reduce.specs.threads.ThreadViews.{thread_view};
ghost use Rattle.pat_machine_spec.specs.Commits.{IsLocalRun};
ghost use Rattle.pat_machine.specs.Shown.{program_of};
ghost use Rattle.pat_workers.specs.turns.Holds.{TakingGives, CommittingGives};

use pat_machine::{CommitRefused, Job, Machine, Receipt, StateRefused};
use pat_machine_threads::LocalRun;
use pat_reduce::ThreadState;

/// What a worker is given in one hold of the turn.
#[derive(Drop)]
pub enum Taken {
    /// A job, and the state that it begins with.
    Job(Job, ThreadState),
    /// Nothing can be taken while jobs are out.
    Nothing,
    /// The run is at its outcome.
    Over,
    /// Memory ran out. The job that was taken is back.
    NoMemory,
}

// A job and its state, if a job can be taken.
pub(crate) fn take(machine: &mut Machine) -> Taken
    ensures { TakingGives machine.old result machine.new }
{
    match machine.take() {
        Some(job) => match machine.state_of(&job) {
            Ok(state) => Taken::Job(job, state),
            Err(StateRefused::NoMemory) => {
                machine.give_back(job);
                Taken::NoMemory
            }
            // A job that was taken just now is out.
            Err(StateRefused::NotOut) => unreachable!(),
        },
        None => match machine.outcome() {
            Some(_) => Taken::Over,
            None => Taken::Nothing,
        },
    }
}

// Commits a job. Where memory runs out the job goes back.
pub(crate) fn commit(
    machine: &mut Machine,
    worker: u32,
    job: Job,
    run: LocalRun,
) -> Result<Receipt, CommitRefused>
    requires { IsLocalRun (program_of machine.old) job.allowance (thread_view run.start) run.steps (thread_view run.end) }
    ensures { CommittingGives machine.old worker job result machine.new }
{
    match machine.commit(worker, job, run) {
        Ok(receipt) => Ok(receipt),
        Err(CommitRefused::NotOut(job)) => Err(CommitRefused::NotOut(job)),
        Err(CommitRefused::NoMemory(job)) => {
            machine.give_back(job);
            Err(CommitRefused::NoMemory(job))
        }
    }
}
