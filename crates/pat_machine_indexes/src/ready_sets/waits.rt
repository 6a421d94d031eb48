// The threads that may go on, those that are about to send, and those that sleep.
ghost use Rattle.std.specs.Prelude.{◌≡◌, [], ◌∷◌, slice_get, Some, None, IfOk, OnOk, IsTrue, ◌↔◌};
ghost use Rattle.pat_machine_indexes.specs.ready_sets.ReadySets.{sleeper_at, IsInOrder, HasSpace, CanHold, HasRoom, Adds, Holds, Removes, Wakes, PutsToSleep, AddsMailbox};

use crate::ready_sets::Ascending;
use std::alloc::{AllocError, Global};

/// The threads that may go on, those whose next step is a send, and for each mailbox the thread that sleeps at its guard, if one does.
/// A thread may stand in several, and one that is in none is known to nobody.
#[derive(Drop)]
pub struct ReadySets {
    pub awake: Ascending,
    /// They can't go on where there is no space for messages.
    pub senders: Ascending,
    pub sleepers: Vec<Option<u32>>,
}

impl ReadySets {
    /// Thread 0 may go on, and there is no mailbox.
    pub fn start(alloc: Global) -> Result<ReadySets, AllocError>
        ensures { IfOk result (λ w. (w.awake.numbers.items ≡ 0 ∷ []) × (w.senders.numbers.items ≡ []) × (w.sleepers.items ≡ [])) }
    {
        let mut first = Vec::new(alloc);
        first.push(0)?;
        Ok(ReadySets {
            awake: Ascending { numbers: first },
            senders: Ascending {
                numbers: Vec::new(alloc),
            },
            sleepers: Vec::new(alloc),
        })
    }

    /// Space for all that sleep and two threads more to go on, for two more senders, and for one more mailbox.
    /// An error changes nothing that is there.
    pub fn reserve(&mut self) -> Result<(), AllocError>
        ensures awake { self.new.awake.numbers.items ≡ self.old.awake.numbers.items }
        ensures senders { self.new.senders.numbers.items ≡ self.old.senders.numbers.items }
        ensures sleepers { self.new.sleepers.items ≡ self.old.sleepers.items }
        ensures space { OnOk result (HasSpace self.new 2) }
        ensures hold { OnOk result (CanHold self.new 2) }
        ensures room { OnOk result (HasRoom self.new) }
    {
        self.awake.reserve(self.sleepers.len() + 2)?;
        self.senders.reserve(2)?;
        self.sleepers.reserve(1)?;
        Ok(())
    }

    /// The thread may go on, and isn't about to send. There is space for it.
    pub fn add(&mut self, thread: u32)
        requires order { IsInOrder self.old }
        requires space { HasSpace self.old 1 }
        ensures { Adds self.old thread self.new }
    {
        self.senders.remove(thread);
        self.awake.add(thread);
    }

    /// The thread may go on where there is space for a message. There is space for it.
    pub fn hold(&mut self, thread: u32)
        requires order { IsInOrder self.old }
        requires space { CanHold self.old 1 }
        ensures { Holds self.old thread self.new }
    {
        self.awake.remove(thread);
        self.senders.add(thread);
    }

    /// The thread can't go on.
    pub fn remove(&mut self, thread: u32)
        requires { IsInOrder self.old }
        ensures { Removes self.old thread self.new }
    {
        self.awake.remove(thread);
        self.senders.remove(thread);
    }

    /// The thread that sleeps at the mailbox, if one does, may go on. There is space for all that sleep.
    pub fn wake(&mut self, mailbox: u32)
        requires order { IsInOrder self.old }
        requires space { HasSpace self.old 0 }
        ensures { Wakes self.old mailbox self.new }
    {
        match self.sleeper(mailbox) {
            Some(thread) => {
                self.sleepers[mailbox as usize] = None;
                self.awake.add(thread);
            }
            None => {}
        }
    }

    /// The thread sleeps at the mailbox, where no thread sleeps yet.
    pub fn put_to_sleep(&mut self, thread: u32, mailbox: u32)
        requires order { IsInOrder self.old }
        requires free { slice_get self.old.sleepers.items mailbox ≡ Some None }
        ensures { PutsToSleep self.old thread mailbox self.new }
    {
        self.sleepers[mailbox as usize] = Some(thread);
        self.remove(thread);
    }

    /// One more mailbox, where no thread sleeps. There is room for it.
    pub fn add_mailbox(&mut self)
        requires { HasRoom self.old }
        ensures { AddsMailbox self.old self.new }
    {
        self.sleepers.push_reserved(None);
    }

    /// Whether a thread may sleep at the mailbox: it is known, and none sleeps there.
    pub fn is_free(&self, mailbox: u32) -> bool
        ensures { IsTrue result ↔ slice_get self.now.sleepers.items mailbox ≡ Some None }
    {
        match self.sleepers.as_slice().get(mailbox as usize) {
            Some(Some(_)) => false,
            Some(None) => true,
            None => false,
        }
    }

    /// The thread that sleeps at the mailbox, if one does.
    pub fn sleeper(&self, mailbox: u32) -> Option<u32>
        ensures { result ≡ sleeper_at self.now.sleepers.items mailbox }
    {
        match self.sleepers.as_slice().get(mailbox as usize) {
            Some(Some(thread)) => Some(*thread),
            Some(None) => None,
            None => None,
        }
    }
}
