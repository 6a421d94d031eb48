// The kept configuration and the states of its threads.
ghost use Rattle.std.specs.Prelude.{◌≡◌, ℕ, ◌<◌, Some, None, length, option_copied, option_map, IfOk, slice_get, slice_set};
ghost use Rattle.pat_semantics_spec.specs.Configs.{Thread as ThreadOf, start, thread_at, with_thread};
ghost use Rattle.pat_core.specs.Views.{program_view};
ghost use Rattle.pat_reduce.specs.threads.ThreadViews.{thread_view};
ghost use Rattle.pat_reduce.specs.Views.{config_view};
ghost use Rattle.pat_machine_threads.specs.store.Remains.{remains_of};
ghost use Rattle.pat_machine_states.specs.Boxes.{AreMailboxesOf};

use pat_machine_indexes::{Mailboxes, copy_pending, count_live, list_live};
use pat_machine_threads::{Remains, ThreadStore};
use pat_reduce::{Config, ThreadState};
use pat_reduce_values::Executable;
use pat_sequences::Text;
use std::alloc::{AllocError, Global};
use std::marker::Model;

/// A configuration, whose messages are kept by mailbox. Contracts see the configuration of the definitions, however it is kept,
/// and how many places there are for pending messages: these are there from the start.
pub struct IndexedConfig {
    /// All but the messages and live mailboxes.
    pub(crate) placed: ThreadStore,
    pub(crate) mailboxes: Mailboxes,
    /// The mailbox of the message that was sent last.
    pub(crate) latest: Option<u32>,
}

impl Drop for IndexedConfig {
    fn drop(self) {
        let IndexedConfig {
            placed: _,
            mailboxes: _,
            latest: _,
        } = self;
    }
}

impl Model for IndexedConfig {
    ghost use Rattle.pat_machine_states.specs.Boxes.{Indexed, state_view, IsState};

    ghost Value = { Indexed };

    ghost view = { λ s. record { config = state_view s.placed s.mailboxes.mailboxes; places = s.mailboxes.room } };

    ghost invariant = { λ s. IsState s.placed s.latest s.mailboxes.mailboxes };
}

impl IndexedConfig {
    /// The start of the program, with so many places for pending messages.
    pub fn start(alloc: Global, code: &Executable, places: u32) -> Result<IndexedConfig, AllocError>
        ensures { IfOk result (λ s. s ≡ record { config = start (program_view code.now.program); places = places }) }
    {
        let placed = ThreadStore::start(alloc, code)?;
        let mailboxes = Mailboxes::fixed(alloc, places)?;
        Ok(IndexedConfig {
            placed,
            mailboxes,
            latest: None,
        })
    }

    /// The state of a thread.
    pub fn thread(&self, thread: u32) -> Option<&ThreadState>
        ensures { option_map thread_view (option_copied result) ≡ thread_at self.now.config thread }
    {
        self.placed.thread(thread)
    }

    // Puts a state in the place of a thread's, which it gives back. It takes no memory.
    pub(crate) fn swap(&mut self, thread: u32, state: ThreadState) -> ThreadState
        requires { (s : ThreadOf) × (thread_at self.old.config thread ≡ Some s) }
        ensures before { thread_at self.old.config thread ≡ Some (thread_view result) }
        ensures after { self.new.config ≡ with_thread self.old.config thread (thread_view state) }
        ensures places { self.new.places ≡ self.old.places }
    {
        self.placed.swap(thread, state)
    }

    /// How many threads were made.
    pub fn threads_made(&self) -> u32
        ensures { result ≡ self.now.config.next_thread }
    {
        self.placed.threads_made()
    }

    /// The printed lines.
    pub fn printed(&self) -> &[Text]
        ensures { result.now ≡ self.now.config.printed }
    {
        self.placed.printed()
    }

    /// The mailboxes: which are live, and what is pending in each. It takes no memory.
    pub fn mailboxes(&self) -> &Mailboxes
        ensures mailboxes { AreMailboxesOf self.now.config result.now.mailboxes }
        ensures places { result.now.room ≡ self.now.places }
    {
        &self.mailboxes
    }

    /// A copy of the configuration.
    pub fn copy(&self, alloc: Global) -> Result<Config, AllocError>
        ensures { IfOk result (λ c. config_view c ≡ self.now.config) }
    {
        let count = self.placed.mailboxes_made();
        let messages = copy_pending(alloc, &self.mailboxes, count)?;
        let live = list_live(alloc, &self.mailboxes, count)?;
        self.placed.copy(alloc, messages, live)
    }

    /// What is left of the configuration.
    pub fn remains(&self, alloc: Global) -> Result<Remains, AllocError>
        ensures { IfOk result (λ r. r ≡ remains_of self.now.config) }
    {
        let live = count_live(&self.mailboxes, self.placed.mailboxes_made());
        self.placed.remains(alloc, live)
    }
}
