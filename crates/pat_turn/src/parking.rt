// How passes park: wait though there is something to do, since one pass does it sooner alone. It tells no pass anything, so no contract
// speaks of it.
use std::sync::Wait;
use std::sync::atomic::{AtomicU64, Ordering};

/// The passes that are parked, and the leader: it may rest, but doesn't park. But for `parked` all of it changes only while the value is
/// held, so who holds it later has seen the change.
#[derive(Drop)]
pub struct Parking {
    /// The number of the pass that leads, counted from 1; 0 where none does.
    leader: AtomicU64,
    /// How often there was something to do for those that are parked.
    wakeups: AtomicU64,
    /// How many passes are parked, or are about to be.
    parked: AtomicU64,
}

impl Parking {
    pub fn new() -> Parking {
        Parking {
            leader: AtomicU64::new(0),
            wakeups: AtomicU64::new(0),
            parked: AtomicU64::new(0),
        }
    }

    /// Who holds the value leads, if no other pass does. Gives the count of wakeups.
    pub fn lead(&self, number: u32) -> u64 {
        if self.leader.load(Ordering::SeqCst) == 0 {
            self.leader.store(number as u64 + 1, Ordering::SeqCst);
        }
        self.wakeups.load(Ordering::SeqCst)
    }

    /// Nobody leads until the value is held again.
    pub fn end_lead(&self) {
        self.leader.store(0, Ordering::SeqCst);
    }

    /// Whether another pass leads.
    pub fn has_other_leader(&self, number: u32) -> bool {
        let leader = self.leader.load(Ordering::SeqCst);
        leader != 0 && leader != number as u64 + 1
    }

    pub fn has_parked(&self) -> bool {
        self.parked.load(Ordering::SeqCst) > 0
    }

    /// Who is about to park, and held the value before, doesn't.
    pub fn count_wakeup(&self) {
        self.wakeups.fetch_add(1, Ordering::SeqCst);
    }

    /// Wakes one of those that are parked, once the wakeup was counted.
    pub fn wake_one(&self) {
        self.wakeups.wake_one();
    }

    /// Wakes all that are parked, once the wakeup was counted.
    pub fn wake_all(&self) {
        self.wakeups.wake_all();
    }

    /// Waits until there are more wakeups than these. It may end for no reason.
    pub fn park<R: Wait>(&self, rt: &R, wakeups: u64) {
        self.parked.fetch_add(1, Ordering::SeqCst);
        if self.wakeups.load(Ordering::SeqCst) == wakeups {
            self.wakeups.park(rt, (wakeups % (1 << 32)) as u32);
        }
        self.parked.fetch_sub(1, Ordering::SeqCst);
    }
}
