// RefCounts that come and go at the end of a commit.
ghost use Rattle.std.specs.Prelude.{◌≡◌, ℕ, ◌+◌, ◌<◌, ◌≤◌, [], length, Some, option_map, vec_len, vec_capacity};
ghost use Rattle.pat_semantics_spec.specs.Configs.{Thread as ThreadOf, thread_at};
ghost use Rattle.pat_reduce.specs.threads.ThreadViews.{message_view};
ghost use Rattle.pat_machine_spec.specs.Tops.{top_of};
ghost use Rattle.pat_machine_laws.specs.refcounts.Naming.{times_in_thread};
ghost use Rattle.pat_machine_laws.specs.refcounts.Counting.{AreCounted, AreCountedBut, count_at, last_message, times_if_message, times_if_thread, times_if_top};
ghost use Rattle.pat_machine_states.specs.Changes.{HasPlaces, Counts, Forgets};
ghost use Rattle.pat_machine_states.specs.Taking.{taken_act, taken_message};
ghost use Rattle.pat_machine_steps.specs.shared_steps.Leaving.{CanBeCounted, IsFound, IsLeft, IsSentLast, made_by, times_put, times_received};

use pat_machine_states::{IndexedConfig, RefCounts, Taken};
use pat_machine_threads::Act;
use pat_reduce::Message;

/// Counts what the end of a commit made of the names. It takes no memory.
pub fn count_end(
    state: &IndexedConfig,
    names: &mut RefCounts,
    thread: u32,
    frames: u32,
    newcomer: u32,
    taken: &Option<Taken>,
)
    requires room { vec_len names.old.times < vec_capacity names.old.times }
    requires can { CanBeCounted state.now.config }
    requires left { IsLeft thread frames newcomer (taken_act taken.now) (taken_message taken.now) names.old.times.items state.now.config }
    ensures { AreCounted names.new.times.items state.now.config }
{
    leave_taken(names, taken);
    count_thread(state, names, thread, frames);
    count_put(state, names, newcomer, taken);
}

/// Counts what the top of a thread names, if it is there.
pub fn count_thread(state: &IndexedConfig, names: &mut RefCounts, thread: u32, frames: u32)
    requires { HasPlaces names.old (λ a. times_if_top frames a (thread_at state.now.config thread)) }
    ensures { Counts names.old (λ a. times_if_top frames a (thread_at state.now.config thread)) names.new }
{
    match state.thread(thread) {
        Some(own) => names.count_top(own, frames),
        None => {}
    }
}

/// Counts what the top of a thread names no longer.
pub fn leave_thread(state: &IndexedConfig, names: &mut RefCounts, thread: u32, frames: u32)
    requires there { (s : ThreadOf) × (thread_at state.now.config thread ≡ Some s) }
    requires counted { AreCounted names.old.times.items state.now.config }
    ensures counted { (s : ThreadOf) → thread_at state.now.config thread ≡ Some s
        → AreCountedBut (λ a. times_in_thread a (top_of frames s)) names.new.times.items state.now.config }
    ensures room { vec_capacity names.old.times ≤ vec_capacity names.new.times }
    ensures len { vec_len names.new.times ≡ vec_len names.old.times }
{
    match state.thread(thread) {
        Some(own) => names.forget_top(own, frames),
        // The thread is there.
        None => unreachable!(),
    }
}

// A place for the mailbox that was made; and what the message that was received named counts no longer.
fn leave_taken(names: &mut RefCounts, taken: &Option<Taken>)
    requires room { vec_len names.old.times < vec_capacity names.old.times }
    requires taken { (a : ℕ) → times_received (taken_act taken.now) (taken_message taken.now) a ≤ count_at names.old.times.items a }
    ensures whole { length names.new.times.items ≡ length names.old.times.items + made_by (taken_act taken.now) }
    ensures times { (a : ℕ) → count_at names.new.times.items a + times_received (taken_act taken.now) (taken_message taken.now) a
        ≡ count_at names.old.times.items a }
{
    match taken {
        Some(taken) => match taken.act {
            Act::New => names.add_mailbox(),
            Act::Receive(_) => forget_received(names, &taken.message),
            _ => {}
        },
        None => {}
    }
}

fn forget_received(names: &mut RefCounts, message: &Option<Message>)
    requires { (a : ℕ) → times_if_message a (option_map message_view message.now) ≤ count_at names.old.times.items a }
    ensures { Forgets names.old (λ a. times_if_message a (option_map message_view message.now)) names.new }
{
    match message {
        Some(message) => names.forget_message(message),
        None => {}
    }
}

// What was sent or spawned.
fn count_put(state: &IndexedConfig, names: &mut RefCounts, newcomer: u32, taken: &Option<Taken>)
    requires found { IsFound newcomer (taken_act taken.now) state.now.config }
    requires places { HasPlaces names.old (times_put state.now.config newcomer (taken_act taken.now)) }
    ensures { Counts names.old (times_put state.now.config newcomer (taken_act taken.now)) names.new }
{
    match taken {
        Some(taken) => match taken.act {
            Act::Send => count_sent(state, names),
            Act::Spawn => count_spawned(state, names, newcomer),
            _ => {}
        },
        None => {}
    }
}

fn count_sent(state: &IndexedConfig, names: &mut RefCounts)
    requires last { IsSentLast state.now.config }
    requires places { HasPlaces names.old (λ a. times_if_message a (last_message state.now.config.messages)) }
    ensures { Counts names.old (λ a. times_if_message a (last_message state.now.config.messages)) names.new }
{
    match state.last_message() {
        Some(message) => names.count_message(message),
        // It was sent.
        None => unreachable!(),
    }
}

// A thread begins with no frame.
fn count_spawned(state: &IndexedConfig, names: &mut RefCounts, newcomer: u32)
    requires bare { (s : ThreadOf) → thread_at state.now.config newcomer ≡ Some s → s.frames ≡ [] }
    requires places { HasPlaces names.old (λ a. times_if_thread a (thread_at state.now.config newcomer)) }
    ensures { Counts names.old (λ a. times_if_thread a (thread_at state.now.config newcomer)) names.new }
{
    match state.thread(newcomer) {
        Some(spawned) => names.count_top(spawned, 0),
        None => {}
    }
}
