// Two workers in one run.
use crate::calls::{answer, answer_past};
use crate::checking::check;
use pat_front::Status;
use pat_load::program_text;
use pat_ports::Gate;
use std::alloc::Global;
use std::process::Abort;
use std::sync::Wait;
use std::sync::atomic::{AtomicU64, Ordering};
use std::test::Fail;
use std::thread::Threads;

// Holds the worker that makes the fourth call before a commit, of all workers' calls, until the other of two has made a commit since, but
// for so many turns at most. By then thread 0 has spawned thread 1, and one of them is free for the other worker, who alone can end
// the hold: where both commits were made on one thread, nobody would.
#[derive(Drop)]
struct Holding {
    calls: AtomicU64,
    commits_of_0: AtomicU64,
    commits_of_1: AtomicU64,
    ended_by_other: AtomicU64,
}

impl Holding {
    fn new() -> Holding {
        Holding {
            calls: AtomicU64::new(0),
            commits_of_0: AtomicU64::new(0),
            commits_of_1: AtomicU64::new(0),
            ended_by_other: AtomicU64::new(0),
        }
    }

    fn hold_until_changed(&self, commits: &AtomicU64) {
        let begun = commits.load(Ordering::SeqCst);
        for _ in 0..100_000_000u32 {
            if commits.load(Ordering::SeqCst) != begun {
                self.ended_by_other.store(1, Ordering::SeqCst);
                return;
            }
        }
    }
}

impl Gate for Holding {
    fn before(&self, worker: u32, _call: u64) {
        if self.calls.fetch_add(1, Ordering::SeqCst) == 3 {
            self.hold_until_changed(if worker == 0 {
                &self.commits_of_1
            } else {
                &self.commits_of_0
            });
        }
    }

    fn after(&self, worker: u32, _call: u64) {
        if worker == 0 {
            self.commits_of_0.fetch_add(1, Ordering::SeqCst);
        } else {
            self.commits_of_1.fetch_add(1, Ordering::SeqCst);
        }
    }
}

// Two workers run at once: the one that is held is let go by the other. The history names both, and replays.
pub fn two_workers<R: Abort + Threads + Wait + Sync>(rt: &R, alloc: Global) -> Result<(), Fail> {
    let mut input = program_text(alloc, 2)?;
    let gate = Holding::new();
    let words = ["run", "--workers", "2"];
    let (status, text) = answer_past(rt, alloc, &words, input.as_slice(), &gate)?;
    check(rt, status == Status::Ok);
    check(rt, gate.ended_by_other.load(Ordering::SeqCst) == 1);
    check(
        rt,
        has(text.as_slice(), b"\n0 ") && has(text.as_slice(), b"\n1 "),
    );
    check(rt, has(text.as_slice(), b"%%output\nout 11\ndone "));
    input.extend_from_slice(text.as_slice())?;
    let (status, output) = answer(
        rt,
        alloc,
        &["replay"],
        input.as_slice(),
        (4096, 4096),
        (0, 0),
    )?;
    check(rt, status == Status::Ok);
    check(rt, text.as_slice().ends_with(output.as_slice()));
    Ok(())
}

// So do two workers of the generated program's run.
pub fn two_workers_of_a_load<R: Abort + Threads + Wait + Sync>(
    rt: &R,
    alloc: Global,
) -> Result<(), Fail> {
    let gate = Holding::new();
    let words = ["load", "2", "--workers", "2"];
    let (status, text) = answer_past(rt, alloc, &words, b"", &gate)?;
    check(rt, status == Status::Ok);
    check(rt, gate.ended_by_other.load(Ordering::SeqCst) == 1);
    check(rt, text.as_slice() == b"out 11\ndone 43\n".as_slice());
    Ok(())
}

// Whether the piece stands in the text.
fn has(text: &[u8], piece: &[u8]) -> bool {
    for at in 0..text.len() {
        if text[at..].starts_with(piece) {
            return true;
        }
    }
    false
}
