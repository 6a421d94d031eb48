// One hold of the turn each.
ghost use Rattle.std.specs.Prelude.{◌≡◌, false, Some};
ghost use Rattle.pat_core.specs.Views.{program_view};
ghost use Rattle.pat_reduce.specs.threads.ThreadViews.{thread_view};
ghost use Rattle.pat_machine_spec.specs.Commits.{IsLocalRun};
ghost use Rattle.pat_machine.specs.declared.job.Named.{Named as NamedOf};
ghost use Rattle.pat_machine.specs.Shown.{Shown};
ghost use Rattle.pat_machine.specs.Gives.{GivesBack};
ghost use Rattle.pat_workers.specs.turns.Holds.{IsHold, TakingGives, CommittingGives};

use crate::turns::machines::{Taken, commit, take};
use pat_machine::{CommitRefused, Job, Machine, Receipt};
use pat_machine_threads::LocalRun;
use pat_turn::{Notify, Pass, Turn};
use std::sync::Wait;

/// Takes a job and its state. Nothing is added to the history. A busy worker wakes one that is parked, if it leaves a job.
pub fn take_in_turn<R: Wait>(
    rt: &R,
    turn: &Turn<Machine>,
    pass: &mut Pass<Machine>,
    is_busy: bool,
) -> Taken
    requires turn { pass.old.turn ≡ turn.now.id }
    requires free { pass.old.holds ≡ false }
    ensures pass { pass.new ≡ record pass.old { seen = pass.new.seen } }
    ensures taken { (found left : Shown) × IsHold pass.old pass.new.seen found left × TakingGives found result left }
{
    let mut machine = turn.hold(rt, pass);
    let _history = machine.history();
    let taken = take(&mut machine);
    let notify = whom_taking_wakes(turn, &machine, &taken, is_busy);
    turn.put_back(pass, machine, notify);
    taken
}

// Who took a job wakes one of those that rest where it leaves another one; who is woken does the same. A job that went back may be
// taken by any of them, and where the run is over all of them end.
fn whom_taking_wakes(
    turn: &Turn<Machine>,
    machine: &Machine,
    taken: &Taken,
    is_busy: bool,
) -> Notify {
    match taken {
        Taken::Job(_, _) if turn.has_resting() && machine.could_take() => Notify::One,
        Taken::Job(_, _) if is_busy && turn.has_parked() && machine.could_take() => {
            Notify::OneParked
        }
        Taken::Job(_, _) | Taken::Nothing => Notify::Nobody,
        Taken::Over | Taken::NoMemory => Notify::All,
    }
}

// Who committed looks for the next job itself, or sees to it that another one does. Mostly there is no other job, and then nobody is
// woken in vain.
fn whom_commit_wakes(committed: &Result<Receipt, CommitRefused>) -> Notify {
    match committed {
        Ok(_) => Notify::Soon,
        Err(_) => Notify::All,
    }
}

/// Commits a job under the number of the pass. Where memory runs out the job goes back in the same hold.
pub fn commit_in_turn<R: Wait>(
    rt: &R,
    turn: &Turn<Machine>,
    pass: &mut Pass<Machine>,
    job: Job,
    run: LocalRun,
) -> Result<Receipt, CommitRefused>
    requires turn { pass.old.turn ≡ turn.now.id }
    requires free { pass.old.holds ≡ false }
    requires run { (named : NamedOf) → pass.old.name ≡ Some named
        → IsLocalRun (program_view named.program) job.allowance (thread_view run.start) run.steps (thread_view run.end) }
    ensures pass { pass.new ≡ record pass.old { seen = pass.new.seen } }
    ensures committed { (found left : Shown) × IsHold pass.old pass.new.seen found left
        × CommittingGives found pass.old.number job result left }
{
    let worker = pass.number();
    let mut machine = turn.hold(rt, pass);
    let _history = machine.history();
    let result = commit(&mut machine, worker, job, run);
    turn.put_back(pass, machine, whom_commit_wakes(&result));
    result
}

/// Gives a job back. Nothing is added to the history.
pub fn give_back_in_turn<R: Wait>(rt: &R, turn: &Turn<Machine>, pass: &mut Pass<Machine>, job: Job)
    requires turn { pass.old.turn ≡ turn.now.id }
    requires free { pass.old.holds ≡ false }
    ensures pass { pass.new ≡ record pass.old { seen = pass.new.seen } }
    ensures back { (found left : Shown) × IsHold pass.old pass.new.seen found left × GivesBack found job left }
{
    let mut machine = turn.hold(rt, pass);
    let _history = machine.history();
    machine.give_back(job);
    turn.put(pass, machine);
}
