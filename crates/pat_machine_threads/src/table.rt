// Threads, each at the place of its number, so that one that ends moves no other.
ghost use Rattle.std.specs.Prelude.{◌≡◌, ◌==◌, ◌+◌, ◌-◌, ◌<◌, ◌≤◌, [], ◌∷◌, ◌++◌, Some, None, drop, get_or, length, map, nat_eq, option_copied, option_map, slice_set, vec_len, vec_capacity, OnOk, OnErr};
ghost use Rattle.std.specs.Map.{lookup, set_value, remove_entry, keys_of};
ghost use Rattle.std.specs.List.{AllByRecursion};
ghost use Rattle.pat_semantics_spec.specs.Configs.{Thread as ThreadOf};
ghost use Rattle.pat_semantics_spec.specs.Orders.{AscendsFrom};
ghost use Rattle.pat_reduce.specs.declared.threads.state.ThreadState.{ThreadState as StateOf};
ghost use Rattle.pat_reduce.specs.threads.ThreadViews.{control_view, frame_view, thread_view};
ghost use Rattle.pat_reduce.specs.Views.{threads_view};
ghost use Rattle.pat_machine_threads.specs.table.Entries.{entries_from};
ghost use Rattle.pat_limits.specs.Limits.{most_number, number_count};

use pat_reduce::{Control, Frame, ThreadState};
use pat_sequences::{Base, Stack};
use std::alloc::{AllocError, Global};
use std::marker::Model;
use std::mem;

/// Threads, each at the place of its number. Contracts see those that are there, in ascending order of number, how many were ever
/// made, and for how many more there is room.
pub struct Table {
    /// Of each thread that was made; an ended one has none.
    slots: Vec<Option<ThreadState>>,
    /// How many threads are there.
    present: usize,
    /// For how many further threads there is room.
    spare: usize,
}

impl Drop for Table {
    fn drop(self) {
        let Table {
            slots: _,
            present: _,
            spare: _,
        } = self;
    }
}

impl Model for Table {
    ghost use Rattle.std.specs.Prelude.{◌≡◌, ◌+◌, ◌<◌, ◌≤◌, length, vec_len, vec_capacity};
    ghost use Rattle.pat_machine_threads.specs.table.Entries.{Threads, entries_from};
    ghost use Rattle.pat_limits.specs.Limits.{number_count};

    ghost Value = { Threads };

    ghost view = { λ t. record { entries = entries_from 0 t.slots.items; made = length t.slots.items; spare = t.spare } };

    ghost invariant = { λ t. (t.present ≡ length (entries_from 0 t.slots.items)) × (length t.slots.items < number_count) × (vec_len t.slots + t.spare ≤ vec_capacity t.slots) };
}

impl Table {
    /// A table without threads. It takes no memory.
    pub fn new(alloc: Global) -> Table
        ensures { result ≡ record { entries = []; made = 0; spare = 0 } }
    {
        Table {
            slots: Vec::new(alloc),
            present: 0,
            spare: 0,
        }
    }

    /// How many threads were made; the next one has this number.
    pub fn made(&self) -> u32
        ensures { result ≡ self.now.made }
    {
        self.slots.len() as u32
    }

    /// Whether no thread is there.
    pub fn is_empty(&self) -> bool
        ensures { result ≡ (length self.now.entries == 0) }
    {
        self.present == 0
    }

    /// The states of the threads that were made, in order of number; an ended one has none.
    pub fn slots(&self) -> &[Option<ThreadState>]
        ensures there { entries_from 0 result.now ≡ self.now.entries }
        ensures made { length result.now ≡ self.now.made }
        ensures few { length result.now < number_count }
        ensures ascends { AscendsFrom 0 (keys_of (threads_view self.now.entries)) }
        ensures below { AllByRecursion (λ e. e.0 < self.now.made) (threads_view self.now.entries) }
    {
        self.slots.as_slice()
    }

    /// The state of a thread.
    pub fn get(&self, thread: u32) -> Option<&ThreadState>
        ensures { option_map thread_view (option_copied result) ≡ lookup (nat_eq thread) (threads_view self.now.entries) }
    {
        state_at(self.slots.as_slice(), thread)
    }

    /// Room for one more thread at least. An error changes nothing.
    pub fn reserve(&mut self) -> Result<(), AllocError>
        ensures entries { self.new.entries ≡ self.old.entries }
        ensures made { self.new.made ≡ self.old.made }
        ensures ok { OnOk result (0 < self.new.spare) }
        ensures err { OnErr result (self.new.spare ≡ self.old.spare) }
    {
        if self.spare == 0 {
            self.slots.reserve(1)?;
            self.spare = 1;
        }
        Ok(())
    }

    /// A further thread, under the next number. It takes no memory.
    pub fn add(&mut self, state: ThreadState)
        requires number { self.old.made < most_number }
        requires room { 0 < self.old.spare }
        ensures { self.new ≡ record { entries = self.old.entries ++ (self.old.made, state) ∷ []; made = self.old.made + 1; spare = self.old.spare - 1 } }
    {
        self.slots.push_reserved(Some(state));
        self.present += 1;
        self.spare -= 1;
    }

    /// Puts a state in the place of a thread's, which it gives back. It takes no memory.
    pub fn swap(&mut self, thread: u32, state: ThreadState) -> ThreadState
        requires { (s : ThreadOf) × (lookup (nat_eq thread) (threads_view self.old.entries) ≡ Some s) }
        ensures made { self.new.made ≡ self.old.made }
        ensures spare { self.new.spare ≡ self.old.spare }
        ensures before { lookup (nat_eq thread) (threads_view self.old.entries) ≡ Some (thread_view result) }
        ensures after { threads_view self.new.entries ≡ set_value (nat_eq thread) (threads_view self.old.entries) (thread_view state) }
    {
        match replace_at(&mut self.slots, thread, Some(state)) {
            Some(kept) => kept,
            // The thread is there.
            None => unreachable!(),
        }
    }

    /// A thread goes on with this control. It takes no memory.
    #[inline(always)]
    pub fn set_control(&mut self, thread: u32, control: Control)
        requires { (s : ThreadOf) × (lookup (nat_eq thread) (threads_view self.old.entries) ≡ Some s) }
        ensures made { self.new.made ≡ self.old.made }
        ensures spare { self.new.spare ≡ self.old.spare }
        ensures after { (s : ThreadOf) → lookup (nat_eq thread) (threads_view self.old.entries) ≡ Some s → threads_view self.new.entries ≡ set_value (nat_eq thread) (threads_view self.old.entries) (record { control = control_view control; frames = s.frames }) }
    {
        set_control_at(&mut self.slots, thread, control);
    }

    /// The frames of a base, but for so many, come below those of a thread. It takes no memory.
    pub fn cover(&mut self, alloc: Global, thread: u32, gone: u32, base: Base<Frame>)
        requires there { (s : ThreadOf) × (lookup (nat_eq thread) (threads_view self.old.entries) ≡ Some s) }
        requires room { (s : ThreadOf) → lookup (nat_eq thread) (threads_view self.old.entries) ≡ Some s → length s.frames ≤ base.1 }
        ensures made { self.new.made ≡ self.old.made }
        ensures spare { self.new.spare ≡ self.old.spare }
        ensures after { (s : ThreadOf) → lookup (nat_eq thread) (threads_view self.old.entries) ≡ Some s → threads_view self.new.entries ≡ set_value (nat_eq thread) (threads_view self.old.entries) (record { control = s.control; frames = s.frames ++ drop gone (map frame_view base.0) }) }
    {
        cover_at(alloc, &mut self.slots, thread, gone, base);
    }

    /// Takes a thread out. It takes no memory.
    pub fn remove(&mut self, thread: u32) -> ThreadState
        requires { (s : ThreadOf) × (lookup (nat_eq thread) (threads_view self.old.entries) ≡ Some s) }
        ensures made { self.new.made ≡ self.old.made }
        ensures spare { self.new.spare ≡ self.old.spare }
        ensures before { lookup (nat_eq thread) (threads_view self.old.entries) ≡ Some (thread_view result) }
        ensures after { threads_view self.new.entries ≡ remove_entry (nat_eq thread) (threads_view self.old.entries) }
    {
        match replace_at(&mut self.slots, thread, None) {
            Some(state) => {
                self.present -= 1;
                state
            }
            // The thread is there.
            None => unreachable!(),
        }
    }
}

// What stands in a slot, if there is such a slot.
fn state_at(slots: &[Option<ThreadState>], thread: u32) -> Option<&ThreadState>
    ensures { option_copied result ≡ get_or slots.now thread None }
{
    match slots.get(thread as usize) {
        Some(Some(state)) => Some(state),
        Some(None) => None,
        None => None,
    }
}

// Puts something in a slot, and gives back what stood there.
fn replace_at(
    slots: &mut Vec<Option<ThreadState>>,
    thread: u32,
    slot: Option<ThreadState>,
) -> Option<ThreadState>
    requires { thread < length slots.old.items }
    ensures before { result ≡ get_or slots.old.items thread None }
    ensures after { slots.new.items ≡ slice_set slots.old.items thread slot }
    ensures space { (vec_len slots.new ≡ vec_len slots.old) × (vec_capacity slots.new ≡ vec_capacity slots.old) }
{
    mem::replace(&mut slots[thread as usize], slot)
}

// The thread in a slot goes on with this control.
fn set_control_at(slots: &mut Vec<Option<ThreadState>>, thread: u32, control: Control)
    requires { (s : StateOf) × (get_or slots.old.items thread None ≡ Some s) }
    ensures space { (vec_len slots.new ≡ vec_len slots.old) × (vec_capacity slots.new ≡ vec_capacity slots.old) }
    ensures after { (s : StateOf) → get_or slots.old.items thread None ≡ Some s → slots.new.items ≡ slice_set slots.old.items thread (Some (record { control = control; frames = s.frames })) }
{
    match &mut slots[thread as usize] {
        Some(state) => state.control = control,
        // The thread is there.
        None => unreachable!(),
    }
}

// The frames of a base, but for so many, come below those of the thread in a slot.
fn cover_at(
    alloc: Global,
    slots: &mut Vec<Option<ThreadState>>,
    thread: u32,
    gone: u32,
    base: Base<Frame>,
)
    requires there { (s : StateOf) × (get_or slots.old.items thread None ≡ Some s) }
    requires room { (s : StateOf) → get_or slots.old.items thread None ≡ Some s → length s.frames ≤ base.1 }
    ensures space { (vec_len slots.new ≡ vec_len slots.old) × (vec_capacity slots.new ≡ vec_capacity slots.old) }
    ensures after { (s : StateOf) → get_or slots.old.items thread None ≡ Some s → slots.new.items ≡ slice_set slots.old.items thread (Some (record { control = s.control; frames = s.frames ++ drop gone base.0 })) }
{
    match &mut slots[thread as usize] {
        Some(state) => {
            let own = mem::replace(&mut state.frames, Stack::new(alloc));
            state.frames = base.cover(gone as usize, own);
        }
        // The thread is there.
        None => unreachable!(),
    }
}
