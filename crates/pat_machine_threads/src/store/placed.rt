// A configuration, its threads by number.
ghost use Rattle.std.specs.Prelude.{◌≡◌, ◌==◌, ◌≤◌, Some, drop, length, map, option_copied, option_map, IfOk};
ghost use Rattle.pat_semantics_spec.specs.Configs.{Thread as ThreadOf, start, thread_at, with_thread};
ghost use Rattle.pat_core.specs.Views.{program_view};
ghost use Rattle.pat_reduce.specs.threads.ThreadViews.{control_view, frame_view, thread_view};
ghost use Rattle.pat_machine_spec.specs.Tops.{below, over};

use crate::table::Table;
use crate::tops::has_at_most;
use pat_reduce::{Config, Control, Frame, ThreadState};
use pat_reduce_values::Executable;
use pat_sequences::{Base, Text, let_go};
use std::alloc::{AllocError, Global};
use std::marker::Model;

/// A configuration whose threads stand each at the place of its number. Contracts see the configuration of the definitions.
pub struct ThreadStore {
    /// All but the threads.
    pub(crate) config: Config,
    pub(crate) table: Table,
}

impl Drop for ThreadStore {
    fn drop(self) {
        let ThreadStore {
            config: _,
            table: _,
        } = self;
    }
}

impl Model for ThreadStore {
    ghost use Rattle.pat_semantics_spec.specs.Configs.{Config};
    ghost use Rattle.pat_machine_threads.specs.store.ThreadStore.{placed_view, IsPlaced};

    ghost Value = { Config };

    ghost view = { λ s. placed_view s.config s.table };

    ghost invariant = { λ s. IsPlaced s.config s.table };
}

impl ThreadStore {
    /// The start of the program.
    pub fn start(alloc: Global, code: &Executable) -> Result<ThreadStore, AllocError>
        ensures { IfOk result (λ c. c ≡ start (program_view code.now.program)) }
    {
        let mut config = Config::start(alloc, code)?;
        let mut table = Table::new(alloc);
        table.reserve()?;
        match config.threads.pop() {
            Some((_, state)) => {
                table.add(state);
                Ok(ThreadStore { config, table })
            }
            None => Ok(ThreadStore { config, table }),
        }
    }

    /// The state of a thread.
    pub fn thread(&self, thread: u32) -> Option<&ThreadState>
        ensures { option_map thread_view (option_copied result) ≡ thread_at self.now thread }
    {
        self.table.get(thread)
    }

    /// Whether a thread, if it is there, has no frame below so many.
    pub fn has_at_most(&self, thread: u32, frames: u32) -> bool
        ensures { (s : ThreadOf) → thread_at self.now thread ≡ Some s → result ≡ (length (below frames s) == 0) }
    {
        match self.thread(thread) {
            Some(state) => has_at_most(state, frames),
            None => true,
        }
    }

    /// Puts a state in the place of a thread's, which it gives back. It takes no memory.
    pub fn swap(&mut self, thread: u32, state: ThreadState) -> ThreadState
        requires { (s : ThreadOf) × (thread_at self.old thread ≡ Some s) }
        ensures before { thread_at self.old thread ≡ Some (thread_view result) }
        ensures after { self.new ≡ with_thread self.old thread (thread_view state) }
    {
        self.table.swap(thread, state)
    }

    /// A thread goes on with a control. It takes no memory.
    pub fn go_on(&mut self, thread: u32, control: Control)
        requires { (s : ThreadOf) × (thread_at self.old thread ≡ Some s) }
        ensures { (s : ThreadOf) → thread_at self.old thread ≡ Some s → self.new ≡ with_thread self.old thread (record { control = control_view control; frames = s.frames }) }
    {
        self.table.set_control(thread, control);
    }

    /// The frames of a base, but for so many, come below those of a thread. It takes no memory.
    pub fn cover(&mut self, alloc: Global, thread: u32, gone: u32, base: Base<Frame>)
        requires there { (s : ThreadOf) × (thread_at self.old thread ≡ Some s) }
        requires room { (s : ThreadOf) → thread_at self.old thread ≡ Some s → length s.frames ≤ base.1 }
        ensures { (s : ThreadOf) → thread_at self.old thread ≡ Some s → self.new ≡ with_thread self.old thread (over s (drop gone (map frame_view base.0))) }
    {
        self.table.cover(alloc, thread, gone, base);
    }

    /// Whether no thread is there.
    pub fn is_over(&self) -> bool
        ensures { result ≡ (length self.now.threads == 0) }
    {
        self.table.is_empty()
    }

    /// How many threads were made.
    pub fn threads_made(&self) -> u32
        ensures { result ≡ self.now.next_thread }
    {
        self.config.next_thread
    }

    /// How many mailboxes were made.
    pub fn mailboxes_made(&self) -> u32
        ensures { result ≡ self.now.next_mailbox }
    {
        self.config.next_mailbox
    }

    /// The printed lines.
    pub fn printed(&self) -> &[Text]
        ensures { result.now ≡ self.now.printed }
    {
        self.config.printed.as_slice()
    }
}
