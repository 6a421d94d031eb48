// How threads wait for their tickets. It tells no pass anything, so no contract speaks of it.
use std::alloc::{AllocError, Global};
use std::sync::Wait;
use std::sync::atomic::{AtomicU64, Ordering};

// As many as tickets that are out at most.
const FLAGS: u64 = 64;

// How many holds before its own a thread stays awake.
const NEAR: u64 = 3;

/// Whether a ticket is served soon.
pub fn is_near(ticket: u64, served: u64) -> bool {
    ticket.wrapping_sub(served) <= NEAR
}

/// A flag for each ticket: 1 where its thread is parked, or is about to be. Tickets that are out at once have different flags.
#[derive(Drop)]
pub struct WakeFlags {
    flags: Vec<AtomicU64>,
}

impl WakeFlags {
    pub fn new(alloc: Global) -> Result<WakeFlags, AllocError> {
        let mut flags = Vec::new(alloc);
        for _ in 0..FLAGS {
            flags.push(AtomicU64::new(0))?;
        }
        Ok(WakeFlags { flags })
    }

    fn of(&self, ticket: u64) -> Option<&AtomicU64> {
        self.flags.as_slice().get((ticket % FLAGS) as usize)
    }

    /// Says that the ticket's thread is about to park. It has to look once more whether it is served, since whoever served it before
    /// this saw no flag.
    pub fn set(&self, ticket: u64) {
        if let Some(flag) = self.of(ticket) {
            flag.store(1, Ordering::SeqCst);
        }
    }

    /// Parks until the flag is taken back, if it hasn't been since it was set. It may end for no reason.
    pub fn park<R: Wait>(&self, rt: &R, ticket: u64) {
        if let Some(flag) = self.of(ticket) {
            flag.park(rt, 1);
        }
    }

    /// Wakes whose turn comes behind a ticket that was served, and whose turn is near then.
    pub fn wake_behind(&self, served: u64) {
        let next = served.wrapping_add(1);
        self.wake(next);
        self.wake(next.wrapping_add(NEAR));
    }

    // Wakes the ticket's thread, if it is parked or about to be.
    fn wake(&self, ticket: u64) {
        if let Some(flag) = self.of(ticket) {
            if flag.load(Ordering::SeqCst) == 1 {
                flag.store(0, Ordering::SeqCst);
                flag.wake_all();
            }
        }
    }
}
