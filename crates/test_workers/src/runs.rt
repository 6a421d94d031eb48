// Runs by several workers, past a gate that counts.
use crate::checking::check;
use pat_machine::{Outcome, Receipt};
use pat_ports::Gate;
use pat_reduce::Entry;
use pat_workers::run;
use std::alloc::Global;
use std::process::Abort;
use std::sync::Wait;
use std::sync::atomic::{AtomicU64, Ordering};
use std::test::Fail;
use std::thread::Threads;
use test_programs::{Example, accepted};

// How often the gate was passed, and how often with a number other than that of the worker's commit.
#[derive(Drop)]
struct Counting {
    before: [AtomicU64; 4],
    after: [AtomicU64; 4],
    wrong: AtomicU64,
}

impl Counting {
    fn new() -> Counting {
        Counting {
            before: zeros(),
            after: zeros(),
            wrong: AtomicU64::new(0),
        }
    }

    fn count(&self, counts: &[AtomicU64], worker: u32, call: u64) {
        let made = match counts.get(worker as usize) {
            Some(count) => count.fetch_add(1, Ordering::SeqCst),
            None => u64::MAX,
        };
        if made.wrapping_add(1) != call {
            self.wrong.fetch_add(1, Ordering::SeqCst);
        }
    }
}

fn zeros() -> [AtomicU64; 4] {
    [
        AtomicU64::new(0),
        AtomicU64::new(0),
        AtomicU64::new(0),
        AtomicU64::new(0),
    ]
}

impl Gate for Counting {
    fn before(&self, worker: u32, call: u64) {
        self.count(&self.before, worker, call);
    }

    fn after(&self, worker: u32, call: u64) {
        self.count(&self.after, worker, call);
    }
}

// The program, its steps and its limit on messages, how it ends, and after how many steps, whoever takes them.
type Row = (Example, u64, u32, Outcome, u64);

const ROWS: [Row; 6] = [
    (Example::OneMessage, 100, 1, Outcome::Done, 9),
    (Example::Turned, 100, 1, Outcome::Full, 7),
    (Example::Crossed, 100, 2, Outcome::Waiting, 13),
    (Example::Crossed, 8, 2, Outcome::Budget, 8),
    (Example::Pump, 3000, 1, Outcome::Budget, 3000),
    (Example::Pump, 3000, 100, Outcome::Budget, 3000),
];

// Each row by 1, 2 and 4 workers.
pub fn runs_to_an_outcome<R: Abort + Threads + Wait + Sync>(
    rt: &R,
    alloc: Global,
) -> Result<(), Fail> {
    for row in ROWS {
        for workers in [1, 2, 4] {
            runs_so(rt, alloc, row, workers)?;
        }
    }
    Ok(())
}

fn runs_so<R: Abort + Threads + Wait + Sync>(
    rt: &R,
    alloc: Global,
    row: Row,
    workers: u32,
) -> Result<(), Fail> {
    let (example, steps, messages, outcome, spent) = row;
    check(
        rt,
        workers > 0 && workers <= 64 && steps <= 1_000_000 && messages > 0 && messages <= 1_000_000,
    );
    let gate = Counting::new();
    let program = accepted(alloc, example)?;
    let finished = run(rt, alloc, program, workers, steps, messages, &gate)?;
    let history = finished.machine.history();
    check(rt, finished.outcome == outcome);
    check(rt, steps_of(history) == spent);
    check(rt, finished.receipts.len() == workers as usize);
    check(rt, gate.wrong.load(Ordering::SeqCst) == 0);
    let places = tell_of_all(rt, &gate, finished.receipts.as_slice(), history);
    check(rt, places == history.len());
    Ok(())
}

// How many of all receipts have a place. The gate has counted each of them.
fn tell_of_all(
    rt: &impl Abort,
    gate: &Counting,
    rows: &[Vec<Receipt>],
    history: &[Entry],
) -> usize {
    let mut places = 0usize;
    let mut worker = 0u32;
    for row in rows {
        let receipts = row.as_slice();
        places = places.wrapping_add(tell_of(rt, worker, receipts, history));
        let counted = gate.after.as_slice().get(worker as usize);
        let counted = counted.expect(rt, "a count").load(Ordering::SeqCst);
        check(rt, counted == receipts.len() as u64);
        worker = worker.wrapping_add(1);
    }
    places
}

// How many of the worker's receipts have a place, each behind that of the one before it, and with its entry there.
fn tell_of(rt: &impl Abort, worker: u32, receipts: &[Receipt], history: &[Entry]) -> usize {
    let mut places = 0usize;
    let mut least = 0u64;
    for receipt in receipts {
        check(rt, receipt.entry.worker == worker);
        if let Some(place) = receipt.index {
            check(
                rt,
                place >= least && history.get(place as usize) == Some(&receipt.entry),
            );
            least = place.wrapping_add(1);
            places = places.wrapping_add(1);
        }
    }
    places
}

fn steps_of(history: &[Entry]) -> u64 {
    let mut steps = 0u64;
    for entry in history {
        steps = steps.wrapping_add(entry.local as u64);
        if entry.shared.is_some() {
            steps = steps.wrapping_add(1);
        }
    }
    steps
}
