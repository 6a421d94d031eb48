// Drives to an outcome, under budgets and limits.
use crate::checking::check;
use pat_machine::{Machine, Outcome};
use pat_reduce::{Act, Entry};
use std::alloc::{AllocError, Global};
use std::process::Abort;
use test_programs::{Example, accepted};

#[derive(Clone, Copy)]
struct Row {
    example: Example,
    steps: u64,
    messages: u32,
    /// The entries: thread, local steps, shared act.
    entries: &'static [(u32, u32, Option<Act>)],
    outcome: Outcome,
}

const ONE_MESSAGE: &[(u32, u32, Option<Act>)] = &[
    (0, 1, Some(Act::New)),
    (0, 2, Some(Act::Send)),
    (0, 1, Some(Act::Receive(0))),
    (0, 0, Some(Act::Free)),
    (0, 0, Some(Act::End)),
];

const TURNED: &[(u32, u32, Option<Act>)] = &[
    (0, 1, Some(Act::New)),
    (0, 2, Some(Act::Send)),
    (0, 2, Some(Act::Send)),
    (0, 1, Some(Act::Receive(1))),
    (0, 0, Some(Act::Receive(0))),
    (0, 0, Some(Act::Free)),
    (0, 0, Some(Act::End)),
];

const HELD_BACK: &[(u32, u32, Option<Act>)] = &[
    (0, 1, Some(Act::New)),
    (0, 2, Some(Act::Send)),
    (0, 2, None),
];

const CROSSED: &[(u32, u32, Option<Act>)] = &[
    (0, 1, Some(Act::New)),
    (0, 2, Some(Act::New)),
    (0, 2, Some(Act::Spawn)),
    (1, 1, None),
    (0, 1, Some(Act::Spawn)),
    (2, 1, None),
    (0, 0, Some(Act::End)),
];

const CUT: &[(u32, u32, Option<Act>)] = &[(0, 1, Some(Act::New)), (0, 1, None)];

fn expects(
    example: Example,
    steps: u64,
    messages: u32,
    entries: &'static [(u32, u32, Option<Act>)],
    outcome: Outcome,
) -> Row {
    Row {
        example,
        steps,
        messages,
        entries,
        outcome,
    }
}

pub fn drives_to_an_outcome(rt: &impl Abort, alloc: Global) {
    let rows = [
        expects(Example::OneMessage, 9, 1, ONE_MESSAGE, Outcome::Done),
        expects(
            Example::OneMessage,
            8,
            1,
            &ONE_MESSAGE[..4],
            Outcome::Budget,
        ),
        expects(Example::OneMessage, 3, 1, CUT, Outcome::Budget),
        expects(Example::OneMessage, 0, 1, &[], Outcome::Budget),
        expects(Example::Turned, 100_000, 2, TURNED, Outcome::Done),
        expects(Example::Turned, 100_000, 1, HELD_BACK, Outcome::Full),
        expects(Example::Turned, 7, 1, HELD_BACK, Outcome::Full),
        expects(
            Example::Crossed,
            100_000,
            1_000_000,
            CROSSED,
            Outcome::Waiting,
        ),
        expects(Example::Crossed, 8, 1, &CROSSED[..3], Outcome::Budget),
    ];
    for i in 0..rows.len() {
        check(rt, is_driven_so(rt, alloc, &rows[i]).expect(rt, "memory"));
    }
}

// Whether the machine is driven by these entries to this outcome.
fn is_driven_so(rt: &impl Abort, alloc: Global, row: &Row) -> Result<bool, AllocError> {
    // Not by the helper: what the machine requires is known behind an assertion.
    assert!(rt; row.steps <= 1_000_000 && row.messages > 0 && row.messages <= 1_000_000);
    let program = accepted(alloc, row.example)?;
    let mut machine = Machine::new(alloc, program, row.steps, row.messages)?;
    let receipts = machine.drive(0)?;
    Ok(
        machine.outcome() == Some(row.outcome)
            && receipts.len() == row.entries.len()
            && are_these(machine.history(), row.entries),
    )
}

fn are_these(entries: &[Entry], rows: &[(u32, u32, Option<Act>)]) -> bool {
    if entries.len() != rows.len() {
        return false;
    }
    for i in 0..entries.len() {
        let want = Entry {
            worker: 0,
            thread: rows[i].0,
            local: rows[i].1,
            shared: rows[i].2,
        };
        if entries[i] != want {
            return false;
        }
    }
    true
}
