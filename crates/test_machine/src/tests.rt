// All in one test: each costs the gate a third of a minute.
use crate::calls::{
    a_job_is_served, jobs_are_taken_and_given_back, mailboxes_are_read,
    no_job_is_taken_without_a_step,
};
use crate::causal::{a_waiting_run_in_order, pairs_change_places_or_stay, two_in_order};
use crate::mailboxes::a_message_is_found_and_taken;
use crate::runs::drives_to_an_outcome;

#[test]
fn the_machine(rt: HostRuntime) {
    jobs_are_taken_and_given_back(&rt, rt.alloc());
    no_job_is_taken_without_a_step(&rt, rt.alloc());
    a_job_is_served(&rt, rt.alloc());
    mailboxes_are_read(&rt, rt.alloc());
    drives_to_an_outcome(&rt, rt.alloc());
    a_message_is_found_and_taken(&rt, rt.alloc());
    pairs_change_places_or_stay(&rt, rt.alloc());
    two_in_order(&rt, rt.alloc());
    a_waiting_run_in_order(&rt, rt.alloc());
}
