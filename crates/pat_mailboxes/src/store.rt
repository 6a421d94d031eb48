// The queues of mailboxes.
ghost use Rattle.std.specs.Prelude.{◌≡◌, ℕ, ◌+◌, ◌≤◌, [], length, Some, IfOk, OnOk, is_ok, if◌then◌else◌, slice_get, vec_len, vec_capacity};
ghost use Rattle.pat_mailboxes.specs.Kept.{IsStore, shown_in};

use crate::queues::Pool;
use std::alloc::{AllocError, Global};

/// Mailboxes by number, each with a queue of one pool.
#[derive(Drop)]
pub struct Store {
    pub pool: Pool,
    /// Of each live mailbox.
    pub queues: Vec<Option<u32>>,
    /// Queues that were opened ahead.
    pub ready: Vec<u32>,
}

impl Store {
    pub(crate) fn fixed(alloc: Global, room: u32) -> Result<Store, AllocError>
        ensures store { IfOk result (λ s. IsStore s room) }
        ensures none { IfOk result (λ s. shown_in s ≡ []) }
    {
        let pool = Pool::fixed(alloc, room)?;
        Ok(Store {
            pool,
            queues: Vec::new(alloc),
            ready: Vec::new(alloc),
        })
    }

    /// Has this many queues ready at least, and room for their mailboxes. An error changes nothing that contracts see.
    pub(crate) fn open_ahead(&mut self, room: u32, mailboxes: u32) -> Result<(), AllocError>
        requires { IsStore self.old room }
        ensures store { IsStore self.new room }
        ensures same { shown_in self.new ≡ shown_in self.old }
        ensures len { vec_len self.new.queues ≡ vec_len self.old.queues }
        ensures capacity { vec_capacity self.old.queues ≤ vec_capacity self.new.queues }
        ensures more { length self.old.ready.items ≤ length self.new.ready.items }
        ensures ready { OnOk result (mailboxes ≤ length self.new.ready.items) }
        ensures room { OnOk result (vec_len self.new.queues + mailboxes ≤ vec_capacity self.new.queues) }
    {
        self.queues.reserve(mailboxes as usize)?;
        for _ in self.ready.len()..mailboxes as usize {
            self.open(room)?;
        }
        Ok(())
    }

    // Opens one more queue.
    fn open(&mut self, room: u32) -> Result<(), AllocError>
        requires { IsStore self.old room }
        ensures store { IsStore self.new room }
        ensures same { shown_in self.new ≡ shown_in self.old }
        ensures queues { self.new.queues ≡ self.old.queues }
        ensures ready { length self.new.ready.items
            ≡ (if is_ok result then length self.old.ready.items + 1 else length self.old.ready.items) }
    {
        self.ready.reserve(1)?;
        let queue = self.pool.open()?;
        self.ready.push_reserved(queue);
        Ok(())
    }
}

/// The queue of a live mailbox.
pub(crate) fn queue_of(queues: &[Option<u32>], mailbox: u32) -> u32
    requires { (q : ℕ) × (slice_get queues.now mailbox ≡ Some (Some q)) }
    ensures { slice_get queues.now mailbox ≡ Some (Some result) }
{
    match queues[mailbox as usize] {
        Some(queue) => queue,
        // The mailbox is live.
        None => unreachable!(),
    }
}
