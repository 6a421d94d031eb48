// Mailboxes over a pool of queues.
ghost use Rattle.std.specs.Prelude.{◌≡◌, ℕ, ◌+◌, ◌-◌, ◌<◌, ◌≤◌, max, [], ◌∷◌, ◌++◌, length, map, find, option_copied, Some, None, IfOk, OnOk, OnErr, slice_get, slice_set, remove, is_some};
ghost use Rattle.std.specs.List.{AllByRecursion};
ghost use Rattle.pat_mailboxes.specs.queues.Lanes.{IsMessageAt, last_of};
ghost use Rattle.pat_mailboxes.specs.Mailboxes.{AreInOrder, IsLive, Mailbox, all_pending, mailbox_at, pending_at};

use crate::queues::Test;
use crate::store::{Store, queue_of};
use pat_reduce::Message;
use std::alloc::{AllocError, Global};
use std::marker::Model;

/// Mailboxes by number. Contracts see what is pending in each live one in order of number, how many messages may be
/// pending, and for how many further mailboxes there is room.
pub struct Mailboxes {
    store: Store,
    spare: u32,
    room: u32,
}

impl Drop for Mailboxes {
    fn drop(self) {
        let Mailboxes {
            store: _,
            spare: _,
            room: _,
        } = self;
    }
}

impl Model for Mailboxes {
    ghost use Rattle.std.specs.Prelude.{◌+◌, ◌≤◌, length, vec_len, vec_capacity};
    ghost use Rattle.pat_mailboxes.specs.Mailboxes.{Contents};

    ghost Value = { Contents };

    ghost use Rattle.pat_mailboxes.specs.Kept.{shown_in, IsStore};

    ghost view = { λ m. record { mailboxes = shown_in m.store; room = m.room; spare = m.spare } };

    ghost invariant = { λ m. IsStore m.store m.room × (m.spare ≤ length m.store.ready.items) × (vec_len m.store.queues + m.spare ≤ vec_capacity m.store.queues) };
}

impl Mailboxes {
    /// No mailbox, and room for this many pending messages, which is never less. It touches none of it.
    pub fn fixed(alloc: Global, room: u32) -> Result<Mailboxes, AllocError>
        ensures { IfOk result (λ m. m ≡ record { mailboxes = []; room = room; spare = 0 }) }
    {
        let store = Store::fixed(alloc, room)?;
        Ok(Mailboxes {
            store,
            spare: 0,
            room,
        })
    }

    /// Makes room for at least so many further mailboxes. An error changes nothing.
    pub fn reserve(&mut self, mailboxes: u32) -> Result<(), AllocError>
        ensures same { (self.new.mailboxes ≡ self.old.mailboxes) × (self.new.room ≡ self.old.room) }
        ensures ok { OnOk result (self.new.spare ≡ max self.old.spare mailboxes) }
        ensures err { OnErr result (self.new.spare ≡ self.old.spare) }
    {
        if mailboxes <= self.spare {
            return Ok(());
        }
        self.store.open_ahead(self.room, mailboxes)?;
        self.spare = mailboxes;
        Ok(())
    }

    /// A further mailbox, whose number is the next one. It takes no memory.
    pub fn create(&mut self, mailbox: u32)
        requires room { 0 < self.old.spare }
        requires next { mailbox ≡ length self.old.mailboxes }
        ensures { self.new ≡ record {
          mailboxes = self.old.mailboxes ++ Some (record { pending = [] }) ∷ [];
          room = self.old.room;
          spare
              = self.old.spare - 1;
        } }
    {
        // The number is the place that the entry gets.
        let _ = mailbox;
        match self.store.ready.pop() {
            Some(queue) => {
                self.store.queues.push_reserved(Some(queue));
                self.spare -= 1;
            }
            // A queue is ready for each mailbox for which there is room.
            None => unreachable!(),
        }
    }

    /// Puts a message behind those that are pending in its mailbox. It takes no memory.
    pub fn send(&mut self, message: Message)
        requires room { all_pending self.old.mailboxes < self.old.room }
        requires live { IsLive self.old.mailboxes message.mailbox }
        requires last { AllByRecursion (λ m. m.number < message.number) (pending_at self.old.mailboxes message.mailbox) }
        ensures { self.new ≡ record {
          mailboxes = slice_set self.old.mailboxes message.mailbox
              (Some (record { pending = pending_at self.old.mailboxes message.mailbox ++ message ∷ [] }));
          room = self.old.room;
          spare
              = self.old.spare;
        } }
    {
        let queue = queue_of(self.store.queues.as_slice(), message.mailbox);
        self.store.pool.push_back(queue, message);
    }

    /// The message of the least number that passes a test. It takes no memory.
    pub fn find<P: Test>(&self, mailbox: u32, test: &P) -> Option<&Message>
        requires { IsLive self.now.mailboxes mailbox }
        ensures first { option_copied result ≡ find (P.passes test.now) (pending_at self.now.mailboxes mailbox) }
        ensures order { AreInOrder self.now.mailboxes }
    {
        let queue = queue_of(self.store.queues.as_slice(), mailbox);
        self.store.pool.find(queue, test)
    }

    /// Takes out the message of a tag and a number that is pending in a mailbox. It takes no memory.
    pub fn take(&mut self, mailbox: u32, tag: u8, number: u32) -> Message
        requires live { IsLive self.old.mailboxes mailbox }
        requires there { (place : ℕ) × IsMessageAt tag number (pending_at self.old.mailboxes mailbox) place }
        ensures number { result.number ≡ number }
        ensures rest { (place : ℕ) × (slice_get (pending_at self.old.mailboxes mailbox) place ≡ Some result) × (self.new ≡ record {
          mailboxes
              = slice_set self.old.mailboxes mailbox (Some (record { pending = remove (pending_at self.old.mailboxes mailbox) place }));
          room
              = self.old.room;
          spare = self.old.spare;
        }) }
    {
        let queue = queue_of(self.store.queues.as_slice(), mailbox);
        self.store.pool.take(queue, tag, number)
    }

    /// How many messages are pending in a mailbox.
    pub fn len(&self, mailbox: u32) -> u32
        requires { IsLive self.now.mailboxes mailbox }
        ensures { result ≡ length (pending_at self.now.mailboxes mailbox) }
    {
        let queue = queue_of(self.store.queues.as_slice(), mailbox);
        self.store.pool.len(queue, self.room)
    }

    /// The last of the messages that are pending in a mailbox. It takes no memory.
    pub fn last(&self, mailbox: u32) -> Option<&Message>
        requires { IsLive self.now.mailboxes mailbox }
        ensures { option_copied result ≡ last_of (pending_at self.now.mailboxes mailbox) }
    {
        let queue = queue_of(self.store.queues.as_slice(), mailbox);
        self.store.pool.last(queue)
    }

    /// The messages that are pending in a mailbox, in order.
    pub fn list(&self, alloc: Global, mailbox: u32) -> Result<Vec<&Message>, AllocError>
        requires { IsLive self.now.mailboxes mailbox }
        ensures { IfOk result (λ ms. map (λ m. m.now) ms.items ≡ pending_at self.now.mailboxes mailbox) }
    {
        let queue = queue_of(self.store.queues.as_slice(), mailbox);
        self.store.pool.list(alloc, queue)
    }

    /// Frees a mailbox that has no message. It takes no memory.
    pub fn free(&mut self, mailbox: u32)
        requires live { IsLive self.old.mailboxes mailbox }
        requires empty { pending_at self.old.mailboxes mailbox ≡ [] }
        ensures { self.new ≡ record {
          mailboxes = slice_set self.old.mailboxes mailbox None;
          room = self.old.room;
          spare
              = self.old.spare;
        } }
    {
        let queue = queue_of(self.store.queues.as_slice(), mailbox);
        self.store.queues[mailbox as usize] = None;
        self.store.pool.release(queue);
    }

    /// For how many pending messages there is room.
    pub fn room(&self) -> u32
        ensures { result ≡ self.now.room }
    {
        self.room
    }

    /// How many messages are pending.
    pub fn pending(&self) -> u32
        ensures { result ≡ all_pending self.now.mailboxes }
    {
        self.room - self.store.pool.spare()
    }

    /// Whether a mailbox is live.
    pub fn is_live(&self, mailbox: u32) -> bool
        ensures { result ≡ is_some (mailbox_at self.now.mailboxes mailbox) }
    {
        match self.store.queues.get(mailbox as usize) {
            Some(Some(_)) => true,
            Some(None) => false,
            None => false,
        }
    }
}
