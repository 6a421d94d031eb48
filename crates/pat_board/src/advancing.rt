// What an advance does to a machine while it is held.
ghost use Rattle.std.specs.Prelude.{None, Err, OnErr};
ghost use Rattle.pat_machine_spec.specs.Lendings.{NoneOut};
ghost use Rattle.pat_machine.specs.Shown.{IsMachine};
ghost use Rattle.pat_machine.specs.Gives.{IsOver, OutcomeGives};
ghost use Rattle.pat_board.specs.Advancing.{TakingGives, Advances};

use crate::answers::{Advance, AdvanceRefused};
use pat_machine::{Job, Machine, Outcome, TakeRefused};
use pat_semantics_laws::outcome_laws;
use std::alloc::AllocError;

/// Takes all jobs back, and serves one job of the thread that is named, or of the one whose turn it is.
pub fn advance(
    machine: &mut Machine,
    worker: u32,
    thread: Option<u32>,
) -> Result<Advance, AdvanceRefused>
    ensures { Advances machine.old worker thread result machine.new }
{
    machine.give_back_all();
    match take(machine, thread) {
        Ok(job) => match machine.serve(worker, job) {
            Ok(receipt) => Ok(Advance {
                receipt,
                outcome: outcome_of(machine),
            }),
            Err(AllocError) => Err(AdvanceRefused::NoMemory),
        },
        Err(refusal) => Err(refusal),
    }
}

// The job of the thread that is named, or of the one whose turn it is.
fn take(machine: &mut Machine, thread: Option<u32>) -> Result<Job, AdvanceRefused>
    requires { NoneOut machine.old.out }
    ensures taken { TakingGives machine.old thread result machine.new }
    ensures facts { IsMachine machine.old }
    ensures refused { OnErr result (IsMachine machine.new) }
{
    // What is always true of a machine is said beside its history.
    let _history = machine.history();
    match thread {
        Some(thread) => match machine.take_thread(thread) {
            Ok(job) => Ok(job),
            Err(TakeRefused::NotReady) => Err(AdvanceRefused::NotReady),
            Err(TakeRefused::Spent) => Err(AdvanceRefused::Spent),
        },
        None => match machine.take() {
            Some(job) => Ok(job),
            None => Err(refusal_of(machine)),
        },
    }
}

// Why there is no job to take, where none is out.
fn refusal_of(machine: &Machine) -> AdvanceRefused
    requires over { IsOver machine.now }
    ensures { TakingGives machine.now None (Err result) machine.now }
{
    // Laws: which steps are enabled tells how a run ends.
    outcome_laws();
    let _history = machine.history();
    match machine.outcome() {
        Some(Outcome::Budget) => AdvanceRefused::Spent,
        Some(Outcome::Done | Outcome::Waiting | Outcome::Full) => AdvanceRefused::NotReady,
        // Nobody is out, and nothing can be taken.
        None => unreachable!(),
    }
}

// The outcome, if the run is at one, and what is always true of a machine.
fn outcome_of(machine: &Machine) -> Option<Outcome>
    ensures outcome { OutcomeGives machine.now result }
    ensures facts { IsMachine machine.now }
{
    let _history = machine.history();
    machine.outcome()
}
