// The end of a run, once the workers have ended.
ghost use Rattle.std.specs.Prelude.{◌≡◌, ◌<◌, length, map, IfOk, OnOk, Some};
ghost use Rattle.pat_machine.specs.Gives.{IsOver, OutcomeGives};
ghost use Rattle.pat_workers.specs.Runs.{GrewFirst, IsFinished};

use crate::serving::Worker;
use pat_machine::{Machine, Outcome, Receipt};
use pat_turn::Pass;
use std::alloc::{AllocError, Global};

/// What a run came to, and the receipts of each worker.
#[derive(Drop)]
pub struct Finished {
    pub machine: Machine,
    pub outcome: Outcome,
    pub receipts: Vec<Vec<Receipt>>,
}

/// Takes what the workers left apart.
pub fn part(
    alloc: Global,
    workers: Vec<Worker>,
) -> Result<(Vec<Pass<Machine>>, Vec<Vec<Receipt>>), AllocError>
    ensures passes { IfOk result (λ r. r.0.items ≡ map (λ w. w.pass) workers.items) }
    ensures receipts { IfOk result (λ r. r.1.items ≡ map (λ w. w.receipts) workers.items) }
{
    let mut passes = Vec::new(alloc);
    let mut receipts = Vec::new(alloc);
    for worker in workers {
        let Worker {
            pass,
            receipts: row,
            short_jobs: _,
        } = worker;
        passes.push(pass)?;
        receipts.push(row)?;
    }
    Ok((passes, receipts))
}

/// Drives what is left to the outcome as worker 0, whose receipts go behind those that it has.
pub fn finish(mut machine: Machine, mut receipts: Vec<Vec<Receipt>>) -> Result<Finished, AllocError>
    requires { 0 < length receipts.items }
    ensures { IfOk result (IsFinished machine receipts.items) }
{
    let driven = machine.drive(0)?;
    add_to_first(&mut receipts, driven.as_slice())?;
    let outcome = outcome_of(&machine);
    Ok(Finished {
        machine,
        outcome,
        receipts,
    })
}

fn add_to_first(receipts: &mut Vec<Vec<Receipt>>, more: &[Receipt]) -> Result<(), AllocError>
    requires { 0 < length receipts.old.items }
    ensures { OnOk result (GrewFirst receipts.old.items more.now receipts.new.items) }
{
    receipts[0].extend_from_slice(more)
}

// The outcome of a machine that was driven.
fn outcome_of(machine: &Machine) -> Outcome
    requires { IsOver machine.now }
    ensures { OutcomeGives machine.now (Some result) }
{
    match machine.outcome() {
        Some(outcome) => outcome,
        // Nobody is out, and nothing can be taken.
        None => unreachable!(),
    }
}
