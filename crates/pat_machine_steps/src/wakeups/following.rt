// Which threads may go on after a step, which are about to send, and which sleep.
ghost use Rattle.std.specs.Prelude.{◌≡◌, Some, option_map, option_copied};
ghost use Rattle.pat_semantics_spec.specs.Configs.{thread_at};
ghost use Rattle.pat_core.specs.Views.{program_view};
ghost use Rattle.pat_reduce.specs.threads.ThreadViews.{message_view, thread_view};
ghost use Rattle.pat_reduce.specs.Views.{act_view};
ghost use Rattle.pat_machine_laws.specs.refcounts.Counting.{TellOfEach};
ghost use Rattle.pat_machine_indexes.specs.ready_sets.ReadySets.{IsInOrder, HasSpace, CanHold, HasRoom};
ghost use Rattle.pat_machine_indexes.specs.ready_sets.Noted.{AreNoted, WereNoted, WereWoken, Follows, Settles};

use crate::wakeups::sending::is_about_to_send;
use crate::wakeups::waking::{wake_freeing, wake_receiver};
use pat_machine_indexes::ReadySets;
use pat_machine_states::{IndexedConfig, RefCounts};
use pat_reduce::{Act, Message, ThreadState};
use pat_reduce_values::Executable;

/// What a commit did: the thread's shared step, if it took one. A spawned thread has the number `newcomer`.
#[derive(Clone, Copy)]
pub struct Stepped<'a> {
    pub thread: u32,
    pub shared: Option<Act>,
    pub newcomer: u32,
    /// Each mailbox that the thread named before, and may have let go.
    pub named: &'a [u32],
    /// The message that it received, if it did.
    pub received: Option<&'a Message>,
}

/// Notes who may go on after a thread's steps, who is about to send, and who sleeps. It takes no memory.
pub fn follow(
    waits: &mut ReadySets,
    code: &Executable,
    state: &IndexedConfig,
    names: &RefCounts,
    stepped: &Stepped<'_>,
)
    requires space { HasSpace waits.old 2 }
    requires hold { CanHold waits.old 2 }
    requires room { HasRoom waits.old }
    requires told { TellOfEach (program_view code.now.program) state.now.config names.now.times.items }
    requires were { WereNoted (program_view code.now.program) waits.old stepped.now.thread
        (option_map act_view stepped.now.shared) stepped.now.newcomer state.now.config stepped.now.named.now
        (option_map message_view (option_copied stepped.now.received)) }
    ensures { AreNoted (program_view code.now.program) state.now.config waits.new.awake.numbers.items waits.new.senders.numbers.items waits.new.sleepers.items }
{
    wake_freeing(waits, code, state, names, stepped.named, stepped.received);
    follow_others(waits, code, state, names, stepped);
    settle(waits, code, state, names, stepped.thread);
}

// Notes the others, whether or not there was a shared step.
fn follow_others(
    waits: &mut ReadySets,
    code: &Executable,
    state: &IndexedConfig,
    names: &RefCounts,
    stepped: &Stepped<'_>,
)
    requires space { HasSpace waits.old 2 }
    requires hold { CanHold waits.old 2 }
    requires room { HasRoom waits.old }
    requires told { TellOfEach (program_view code.now.program) state.now.config names.now.times.items }
    requires were { WereWoken (program_view code.now.program) waits.old stepped.now.thread
        (option_map act_view stepped.now.shared) stepped.now.newcomer state.now.config }
    ensures { Follows (program_view code.now.program) state.now.config waits.new stepped.now.thread }
{
    match stepped.shared {
        Some(act) => follow_act(waits, code, state, names, stepped, act),
        None => {}
    }
}

fn follow_act(
    waits: &mut ReadySets,
    code: &Executable,
    state: &IndexedConfig,
    names: &RefCounts,
    stepped: &Stepped<'_>,
    act: Act,
)
    requires space { HasSpace waits.old 2 }
    requires hold { CanHold waits.old 2 }
    requires room { HasRoom waits.old }
    requires told { TellOfEach (program_view code.now.program) state.now.config names.now.times.items }
    requires were { WereWoken (program_view code.now.program) waits.old stepped.now.thread
        (Some (act_view act)) stepped.now.newcomer state.now.config }
    ensures { Follows (program_view code.now.program) state.now.config waits.new stepped.now.thread }
{
    match act {
        Act::Send => wake_receiver(waits, code, state),
        Act::Spawn => settle(waits, code, state, names, stepped.newcomer),
        Act::New => waits.add_mailbox(),
        _ => {}
    }
}

// Notes whether a thread may go on, is about to send, or sleeps.
fn settle(
    waits: &mut ReadySets,
    code: &Executable,
    state: &IndexedConfig,
    names: &RefCounts,
    thread: u32,
)
    requires order { IsInOrder waits.old }
    requires space { HasSpace waits.old 1 }
    requires hold { CanHold waits.old 1 }
    requires told { TellOfEach (program_view code.now.program) state.now.config names.now.times.items }
    ensures { Settles (program_view code.now.program) state.now.config waits.old thread waits.new }
{
    match state.thread(thread) {
        Some(own) => settle_there(waits, code, state, names, thread, own),
        // It ended.
        None => waits.remove(thread),
    }
}

fn settle_there(
    waits: &mut ReadySets,
    code: &Executable,
    state: &IndexedConfig,
    names: &RefCounts,
    thread: u32,
    own: &ThreadState,
)
    requires order { IsInOrder waits.old }
    requires space { HasSpace waits.old 1 }
    requires hold { CanHold waits.old 1 }
    requires told { TellOfEach (program_view code.now.program) state.now.config names.now.times.items }
    requires own { thread_at state.now.config thread ≡ Some (thread_view own.now) }
    ensures { Settles (program_view code.now.program) state.now.config waits.old thread waits.new }
{
    match state.awaited(code, names, thread) {
        Some(mailbox) if waits.is_free(mailbox) => waits.put_to_sleep(thread, mailbox),
        Some(_) => waits.add(thread),
        None if is_about_to_send(code, own) => waits.hold(thread),
        None => waits.add(thread),
    }
}
