// Single calls, in an order that a worker might make them in.
use crate::checking::check;
use pat_machine::{Machine, StateRefused, TakeRefused};
use std::alloc::Global;
use std::process::Abort;
use test_programs::{one_message, turned};

pub fn jobs_are_taken_and_given_back(rt: &impl Abort, alloc: Global) {
    let program = turned(alloc).expect(rt, "memory");
    let mut machine = Machine::new(alloc, program, 300, 1).expect(rt, "memory");
    let job = machine.take().expect(rt, "a job");
    check(rt, job.allowance == 256);
    check(rt, machine.take() == None);
    check(rt, machine.outcome() == None);
    machine.give_back(job);
    match machine.state_of(&job) {
        Err(StateRefused::NotOut) => {}
        _ => panic!(rt; "the state of a job that isn't out"),
    }
    check(rt, machine.take() == Some(job));
    machine.give_back_all();
    machine.give_back(job);
    let taken = machine.take_thread(0).expect(rt, "a job");
    check(rt, taken.allowance == 256);
    check(rt, machine.take_thread(1) == Err(TakeRefused::NotReady));
}

pub fn no_job_is_taken_without_a_step(rt: &impl Abort, alloc: Global) {
    let program = one_message(alloc).expect(rt, "memory");
    let mut machine = Machine::new(alloc, program, 0, 1).expect(rt, "memory");
    check(rt, machine.take() == None);
    check(rt, machine.take_thread(0) == Err(TakeRefused::Spent));
    check(rt, machine.mailboxes().messages.room() == 0);
}

pub fn a_job_is_served(rt: &impl Abort, alloc: Global) {
    let program = one_message(alloc).expect(rt, "memory");
    let mut machine = Machine::new(alloc, program, 300, 1).expect(rt, "memory");
    match machine.take() {
        Some(job) => {
            let receipt = machine.serve(3, job).expect(rt, "memory");
            check(rt, receipt.index == Some(0) && receipt.entry.worker == 3);
        }
        None => panic!(rt; "no job"),
    }
    check(rt, machine.history().len() == 1);
}

pub fn mailboxes_are_read(rt: &impl Abort, alloc: Global) {
    let program = turned(alloc).expect(rt, "memory");
    let mut machine = Machine::new(alloc, program, 300, 1).expect(rt, "memory");
    machine.run(0).expect(rt, "memory");
    // One message is pending, and a second one is held back.
    let mailboxes = machine.mailboxes();
    check(rt, mailboxes.messages.pending() == 1);
    check(rt, mailboxes.messages.room() == 1);
    check(
        rt,
        mailboxes.messages.is_live(0) && !mailboxes.messages.is_live(1),
    );
    check(rt, mailboxes.named(0) > 0 && mailboxes.named(1) == 0);
}
