// A whole history in order.
use crate::causal::pairs::entry;
use crate::checking::check;
use pat_causal::order;
use pat_reduce::Act;
use std::alloc::Global;
use std::process::Abort;

// Two threads wait; thread 1 went on between steps of thread 0, and stands behind them in the end.
pub fn a_waiting_run_in_order(rt: &impl Abort, alloc: Global) {
    let entries = [
        entry(0, 1, Some(Act::New)),
        entry(0, 2, Some(Act::New)),
        entry(0, 2, Some(Act::Spawn)),
        entry(1, 1, None),
        entry(0, 1, Some(Act::Spawn)),
        entry(2, 1, None),
        entry(0, 0, Some(Act::End)),
    ];
    let wanted = [
        entry(0, 1, Some(Act::New)),
        entry(0, 2, Some(Act::New)),
        entry(0, 2, Some(Act::Spawn)),
        entry(0, 1, Some(Act::Spawn)),
        entry(0, 0, Some(Act::End)),
        entry(1, 1, None),
        entry(2, 1, None),
    ];
    let ordered = order(alloc, &entries).expect(rt, "memory");
    check(rt, ordered.as_slice() == wanted.as_slice());
}
