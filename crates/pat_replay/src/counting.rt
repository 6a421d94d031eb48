// How often mailboxes are named, while threads and messages of a configuration in tables change.
ghost use Rattle.std.specs.Prelude.{◌≡◌, ℕ, ◌+◌, [], None, Some, nat_eq, option_map, IsTrue};
ghost use Rattle.pat_semantics_spec.specs.Configs.{Config as ConfigOf, thread_at};
ghost use Rattle.pat_semantics_spec.specs.Steps.{ActEnd, ActReceive, ActSend, message_at};
ghost use Rattle.pat_reduce.specs.Views.{act_view};
ghost use Rattle.pat_reduce.specs.threads.ThreadViews.{control_view, message_view, thread_view};
ghost use Rattle.pat_machine_spec.specs.Tops.{top_of};
ghost use Rattle.pat_machine_laws.specs.refcounts.Naming.{times_in_control, times_in_thread};
ghost use Rattle.pat_machine_laws.specs.refcounts.Counting.{count_at, last_message, times_come, times_gone, times_if_message, times_if_thread, times_if_top};
ghost use Rattle.pat_replay.specs.declared.names.Change.TheVariants.{Come, Go};
ghost use Rattle.pat_replay.specs.Naming.{Changes, IsSentLast};

use crate::names::{Change, change_thread, change_top, change_values};
use pat_machine_states::{Counted, IndexedConfig, RefCounts};
use pat_reduce::{Act, Control, Message, Step, ThreadState};
use std::alloc::Global;

/// How often threads and messages name each mailbox, by number, while that is known.
#[derive(Drop)]
pub struct Names {
    pub counts: RefCounts,
    pub known: bool,
}

impl Names {
    /// No name. It takes no memory.
    pub fn new(alloc: Global) -> Names
        ensures { result.counts.times.items ≡ [] }
    {
        Names {
            counts: RefCounts::new(alloc),
            known: true,
        }
    }

    /// Whether the control alone is known to name the mailbox.
    pub fn tell_alone(&self, control: &Control, mailbox: u32) -> bool
        ensures known { IsTrue result → IsTrue self.now.known }
        ensures alone { IsTrue result
            → IsTrue (nat_eq (count_at self.now.counts.times.items mailbox) (times_in_control mailbox (control_view control.now))) }
    {
        if !self.known {
            return false;
        }
        Counted::All(&self.counts).names_alone(control, mailbox)
    }

    /// The top of a thread was exchanged: so many of its frames, and what stands in the place of them now.
    pub fn exchange_top(&mut self, kept: &ThreadState, gone: u32, end: &ThreadState)
        ensures { IsTrue self.new.known → IsTrue self.old.known × ((a : ℕ)
            → count_at self.new.counts.times.items a + times_in_thread a (top_of gone (thread_view kept.now))
            ≡ count_at self.old.counts.times.items a + times_in_thread a (thread_view end.now)) }
    {
        if !self.known {
            return;
        }
        self.known = exchange(&mut self.counts.times, kept, gone, end);
    }

    /// What the control of a thread names counts no longer, if it is there.
    pub fn leave_control(&mut self, state: &IndexedConfig, thread: u32)
        ensures { IsTrue self.new.known → IsTrue self.old.known
            × Changes Go self.old.counts.times.items (λ a. times_if_top 0 a (thread_at state.now.config thread)) self.new.counts.times.items }
    {
        if !self.known {
            return;
        }
        self.known = leave_control(&mut self.counts.times, state, thread);
    }

    /// A shared step was taken: what it put there counts, and what the control of its thread names, if that is still there; what it took
    /// counts no longer.
    pub fn follow(
        &mut self,
        state: &IndexedConfig,
        step: &Step,
        newcomer: u32,
        message: &Option<Message>,
    )
        requires { act_view step.now.act ≡ ActSend → IsSentLast state.now.config }
        ensures ended { IsTrue self.new.known → thread_at state.now.config step.now.thread ≡ None → act_view step.now.act ≡ ActEnd }
        ensures counted { IsTrue self.new.known → IsTrue self.old.known × ((c : ConfigOf) → newcomer ≡ c.next_thread
            → ((k : ℕ) → act_view step.now.act ≡ ActReceive k → option_map message_view message.now ≡ message_at c k) → (a : ℕ)
            → count_at self.new.counts.times.items a + times_gone c (Some (act_view step.now.act)) a
            ≡ count_at self.old.counts.times.items a + (times_if_top 0 a (thread_at state.now.config step.now.thread)
            + times_come c state.now.config (Some (act_view step.now.act)) a)) }
    {
        if !self.known {
            return;
        }
        self.known = follow(&mut self.counts.times, state, step, newcomer, message);
    }
}

fn exchange(times: &mut Vec<u32>, kept: &ThreadState, gone: u32, end: &ThreadState) -> bool
    ensures { IsTrue result → (a : ℕ) → count_at times.new.items a + times_in_thread a (top_of gone (thread_view kept.now))
        ≡ count_at times.old.items a + times_in_thread a (thread_view end.now) }
{
    if !change_top(times, Change::Go, kept, gone) {
        return false;
    }
    change_thread(times, Change::Come, end)
}

fn follow(
    times: &mut Vec<u32>,
    state: &IndexedConfig,
    step: &Step,
    newcomer: u32,
    message: &Option<Message>,
) -> bool
    requires { act_view step.now.act ≡ ActSend → IsSentLast state.now.config }
    ensures ended { IsTrue result → thread_at state.now.config step.now.thread ≡ None → act_view step.now.act ≡ ActEnd }
    ensures counted { IsTrue result → (c : ConfigOf) → newcomer ≡ c.next_thread
        → ((k : ℕ) → act_view step.now.act ≡ ActReceive k → option_map message_view message.now ≡ message_at c k) → (a : ℕ)
        → count_at times.new.items a + times_gone c (Some (act_view step.now.act)) a
        ≡ count_at times.old.items a + (times_if_top 0 a (thread_at state.now.config step.now.thread)
        + times_come c state.now.config (Some (act_view step.now.act)) a) }
{
    if !change_taken(times, state, step.act, newcomer, message) {
        return false;
    }
    follow_control(times, state, step)
}

// What the control of the step's thread names now, if the thread is still there, as it is but for an end.
fn follow_control(times: &mut Vec<u32>, state: &IndexedConfig, step: &Step) -> bool
    ensures ended { IsTrue result → thread_at state.now.config step.now.thread ≡ None → act_view step.now.act ≡ ActEnd }
    ensures counted { IsTrue result → Changes Come times.old.items
        (λ a. times_if_top 0 a (thread_at state.now.config step.now.thread)) times.new.items }
{
    match state.thread(step.thread) {
        Some(own) => change_top(times, Change::Come, own, 0),
        None => matches!(step.act, Act::End),
    }
}

fn leave_control(times: &mut Vec<u32>, state: &IndexedConfig, thread: u32) -> bool
    ensures { IsTrue result
        → Changes Go times.old.items (λ a. times_if_top 0 a (thread_at state.now.config thread)) times.new.items }
{
    match state.thread(thread) {
        Some(own) => change_top(times, Change::Go, own, 0),
        None => true,
    }
}

// What a shared step put into the configuration besides its thread, or took out of it.
fn change_taken(
    times: &mut Vec<u32>,
    state: &IndexedConfig,
    act: Act,
    newcomer: u32,
    message: &Option<Message>,
) -> bool
    requires { act_view act ≡ ActSend → IsSentLast state.now.config }
    ensures { IsTrue result → (c : ConfigOf) → newcomer ≡ c.next_thread
        → ((k : ℕ) → act_view act ≡ ActReceive k → option_map message_view message.now ≡ message_at c k) → (a : ℕ)
        → count_at times.new.items a + times_gone c (Some (act_view act)) a
        ≡ count_at times.old.items a + times_come c state.now.config (Some (act_view act)) a }
{
    match act {
        Act::New => add_mailbox(times),
        Act::Send => count_sent(times, state),
        Act::Spawn => count_spawned(times, state, newcomer),
        Act::Receive(_) => leave_received(times, message),
        _ => true,
    }
}

// A place for one more mailbox, which nothing names yet.
fn add_mailbox(times: &mut Vec<u32>) -> bool
    ensures { (a : ℕ) → count_at times.new.items a ≡ count_at times.old.items a }
{
    times.push(0).is_ok()
}

fn count_sent(times: &mut Vec<u32>, state: &IndexedConfig) -> bool
    requires { IsSentLast state.now.config }
    ensures { IsTrue result
        → Changes Come times.old.items (λ a. times_if_message a (last_message state.now.config.messages)) times.new.items }
{
    match state.last_message() {
        Some(message) => change_values(times, Change::Come, message.values.as_slice()),
        None => false,
    }
}

fn leave_received(times: &mut Vec<u32>, message: &Option<Message>) -> bool
    ensures { IsTrue result
        → Changes Go times.old.items (λ a. times_if_message a (option_map message_view message.now)) times.new.items }
{
    match message {
        Some(message) => change_values(times, Change::Go, message.values.as_slice()),
        None => true,
    }
}

fn count_spawned(times: &mut Vec<u32>, state: &IndexedConfig, newcomer: u32) -> bool
    ensures { IsTrue result
        → Changes Come times.old.items (λ a. times_if_thread a (thread_at state.now.config newcomer)) times.new.items }
{
    match state.thread(newcomer) {
        Some(spawned) => change_thread(times, Change::Come, spawned),
        None => true,
    }
}
