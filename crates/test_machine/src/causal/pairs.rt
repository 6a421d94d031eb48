// Which neighbours change places: for each reason why they may not, a pair that stays, and one that doesn't but for it.
use crate::checking::check;
use pat_causal::order;
use pat_reduce::{Act, Entry};
use std::alloc::Global;
use std::process::Abort;

pub fn entry(thread: u32, local: u32, shared: Option<Act>) -> Entry {
    Entry {
        worker: 0,
        thread,
        local,
        shared,
    }
}

// Whether entries of threads 3 and 2 change places, behind a spawn and a send of thread 0: the next thread is 2, the next message 1.
fn change(rt: &impl Abort, alloc: Global, first: Option<Act>, second: Option<Act>) -> bool {
    let entries = [
        entry(0, 1, Some(Act::Spawn)),
        entry(0, 0, Some(Act::Send)),
        entry(3, 0, first),
        entry(2, 3, second),
    ];
    let ordered = order(alloc, &entries).expect(rt, "memory");
    ordered.len() == 4 && ordered[2].thread == 2
}

pub fn pairs_change_places_or_stay(rt: &impl Abort, alloc: Global) {
    let pairs = [
        (None, None, true),
        // A free touches all that names its mailbox.
        (Some(Act::Free), None, false),
        (None, Some(Act::Free), false),
        // Numbers and lines are given in turn.
        (Some(Act::New), Some(Act::New), false),
        (Some(Act::Send), Some(Act::Send), false),
        (Some(Act::Spawn), Some(Act::Spawn), false),
        (Some(Act::Print), Some(Act::Print), false),
        (Some(Act::New), Some(Act::Send), true),
        (Some(Act::Print), Some(Act::New), true),
        (Some(Act::End), Some(Act::End), true),
        (Some(Act::Receive(0)), Some(Act::Receive(0)), true),
        // A thread goes on once it is made.
        (Some(Act::Spawn), None, false),
        (None, Some(Act::Spawn), true),
        // A message comes once it is sent.
        (Some(Act::Send), Some(Act::Receive(1)), false),
        (Some(Act::Send), Some(Act::Receive(0)), true),
        (Some(Act::Receive(1)), Some(Act::Send), true),
    ];
    for (first, second, wanted) in pairs {
        check(rt, change(rt, alloc, first, second) == wanted);
    }
}

// Two entries, and what stands first in the end.
pub fn two_in_order(rt: &impl Abort, alloc: Global) {
    let early = entry(1, 0, None);
    let late = entry(1, 1, None);
    let ending = entry(2, 3, Some(Act::End));
    let spawning = entry(3, 1, Some(Act::Spawn));
    let pairs = [
        // Of one thread.
        (late, early, late),
        (early, late, early),
        // The lesser thread is first already.
        (early, ending, early),
        (ending, early, early),
        // It makes another thread than the one that goes on.
        (spawning, ending, ending),
    ];
    for (first, second, wanted) in pairs {
        let ordered = order(alloc, &[first, second]).expect(rt, "memory");
        check(rt, ordered.len() == 2 && ordered[0] == wanted);
    }
}
