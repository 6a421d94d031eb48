// Counts of names, by mailbox.
ghost use Rattle.std.specs.Prelude.{◌≡◌, ℕ, ◌<◌, [], ◌∷◌, ◌++◌, OnOk, vec_len, vec_capacity};
ghost use Rattle.pat_reduce.specs.threads.ThreadViews.{message_view, thread_view};
ghost use Rattle.pat_machine_spec.specs.Tops.{top_of};
ghost use Rattle.pat_machine_laws.specs.refcounts.Naming.{times_in_message, times_in_thread};
ghost use Rattle.pat_machine_indexes.specs.refcounts.Changes.{HasPlaces, Counts, Covers, Forgets};

use crate::refcounts::changing::Change;
use pat_reduce::{Message, ThreadState};
use std::alloc::{AllocError, Global};

/// How often threads and messages name each mailbox, by number.
#[derive(Drop)]
pub struct RefCounts {
    pub times: Vec<u32>,
}

impl RefCounts {
    /// No mailbox. It takes no memory.
    pub fn new(alloc: Global) -> RefCounts
        ensures { result.times.items ≡ [] }
    {
        RefCounts {
            times: Vec::new(alloc),
        }
    }

    /// Room for one more mailbox. An error changes nothing that is there.
    pub fn reserve(&mut self) -> Result<(), AllocError>
        ensures same { self.new.times.items ≡ self.old.times.items }
        ensures room { OnOk result (vec_len self.new.times < vec_capacity self.new.times) }
    {
        self.times.reserve(1)
    }

    /// One more mailbox, which nothing names yet. There is room for it.
    pub fn add_mailbox(&mut self)
        requires { vec_len self.old.times < vec_capacity self.old.times }
        ensures { self.new.times.items ≡ self.old.times.items ++ 0 ∷ [] }
    {
        self.times.push_reserved(0);
    }
    /// Counts what the control of a thread and so many of its frames, those on top, name. It takes no memory.
    pub fn count_top(&mut self, state: &ThreadState, frames: u32)
        requires { HasPlaces self.old (λ a. times_in_thread a (top_of frames (thread_view state.now))) }
        ensures { Counts self.old (λ a. times_in_thread a (top_of frames (thread_view state.now))) self.new }
    {
        self.change_top(Change::Come, state, frames);
    }

    /// Counts it no longer. It takes no memory.
    pub fn forget_top(&mut self, state: &ThreadState, frames: u32)
        requires { Covers self.old (λ a. times_in_thread a (top_of frames (thread_view state.now))) }
        ensures { Forgets self.old (λ a. times_in_thread a (top_of frames (thread_view state.now))) self.new }
    {
        self.change_top(Change::Go, state, frames);
    }

    /// Counts what a message names. It takes no memory.
    pub fn count_message(&mut self, message: &Message)
        requires { HasPlaces self.old (λ a. times_in_message a (message_view message.now)) }
        ensures { Counts self.old (λ a. times_in_message a (message_view message.now)) self.new }
    {
        self.change_values(Change::Come, message.values.as_slice());
    }

    /// Counts it no longer. It takes no memory.
    pub fn forget_message(&mut self, message: &Message)
        requires { Covers self.old (λ a. times_in_message a (message_view message.now)) }
        ensures { Forgets self.old (λ a. times_in_message a (message_view message.now)) self.new }
    {
        self.change_values(Change::Go, message.values.as_slice());
    }
}
