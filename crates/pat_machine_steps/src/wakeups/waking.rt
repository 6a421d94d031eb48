// Sleepers that may go on since another thread took its steps.
ghost use Rattle.std.specs.Prelude.{map, option_map, option_copied};
ghost use Rattle.pat_core.specs.Views.{program_view};
ghost use Rattle.pat_reduce_values.specs.ValueViews.{value_view};
ghost use Rattle.pat_reduce.specs.threads.ThreadViews.{message_view};
ghost use Rattle.pat_machine_laws.specs.refcounts.Counting.{TellOfEach};
ghost use Rattle.pat_machine_indexes.specs.ready_sets.ReadySets.{IsInOrder, HasSpace, WakesThose};
ghost use Rattle.pat_machine_indexes.specs.ready_sets.Noted.{FreesListed, IsReady};
ghost use Rattle.pat_machine_steps.specs.wakeups.Sleepers.{FreesNamed, FreesBrought, FreesValue, FreesAt, ReceivesAt};

use pat_machine_indexes::ReadySets;
use pat_machine_states::{IndexedConfig, RefCounts};
use pat_reduce::Message;
use pat_reduce_values::{Executable, Value};

/// Whoever sleeps at the mailbox that the last message came to may go on, if it may receive that message. No other is looked at.
pub fn wake_receiver(waits: &mut ReadySets, code: &Executable, state: &IndexedConfig)
    requires order { IsInOrder waits.old }
    requires space { HasSpace waits.old 0 }
    ensures { WakesThose (IsReady (program_view code.now.program) state.now.config) waits.old waits.new }
{
    match state.last_mailbox() {
        Some(mailbox) => wake_to_receive(waits, code, state, mailbox),
        None => {}
    }
}

// Whoever sleeps at the mailbox may go on, if it may receive the last message.
fn wake_to_receive(waits: &mut ReadySets, code: &Executable, state: &IndexedConfig, mailbox: u32)
    requires order { IsInOrder waits.old }
    requires space { HasSpace waits.old 0 }
    ensures { WakesThose (ReceivesAt (program_view code.now.program) state.now.config mailbox) waits.old waits.new }
{
    match waits.sleeper(mailbox) {
        Some(thread) if state.receives_last(code, thread) => waits.wake(mailbox),
        Some(_) => {}
        None => {}
    }
}

/// Whoever sleeps at a mailbox that is named here, or that the message brought, may go on, if it may free that one.
pub fn wake_freeing(
    waits: &mut ReadySets,
    code: &Executable,
    state: &IndexedConfig,
    names: &RefCounts,
    named: &[u32],
    received: Option<&Message>,
)
    requires order { IsInOrder waits.old }
    requires space { HasSpace waits.old 0 }
    requires told { TellOfEach (program_view code.now.program) state.now.config names.now.times.items }
    ensures { WakesThose (FreesListed (program_view code.now.program) state.now.config named.now
        (option_map message_view (option_copied received.entry))) waits.old waits.new }
{
    wake_named(waits, code, state, names, named);
    match received {
        Some(message) => wake_brought(waits, code, state, names, message.values.as_slice()),
        None => {}
    }
}

fn wake_named(
    waits: &mut ReadySets,
    code: &Executable,
    state: &IndexedConfig,
    names: &RefCounts,
    named: &[u32],
)
    requires order { IsInOrder waits.old }
    requires space { HasSpace waits.old 0 }
    requires told { TellOfEach (program_view code.now.program) state.now.config names.now.times.items }
    ensures { WakesThose (FreesNamed (program_view code.now.program) state.now.config named.now) waits.old waits.new }
{
    for mailbox in named {
        wake_to_free(waits, code, state, names, *mailbox);
    }
}

fn wake_brought(
    waits: &mut ReadySets,
    code: &Executable,
    state: &IndexedConfig,
    names: &RefCounts,
    values: &[Value],
)
    requires order { IsInOrder waits.old }
    requires space { HasSpace waits.old 0 }
    requires told { TellOfEach (program_view code.now.program) state.now.config names.now.times.items }
    ensures { WakesThose (FreesBrought (program_view code.now.program) state.now.config (map value_view values.now)) waits.old waits.new }
{
    for value in values {
        wake_at_value(waits, code, state, names, value);
    }
}

fn wake_at_value(
    waits: &mut ReadySets,
    code: &Executable,
    state: &IndexedConfig,
    names: &RefCounts,
    value: &Value,
)
    requires order { IsInOrder waits.old }
    requires space { HasSpace waits.old 0 }
    requires told { TellOfEach (program_view code.now.program) state.now.config names.now.times.items }
    ensures { WakesThose (FreesValue (program_view code.now.program) state.now.config (value_view value.now)) waits.old waits.new }
{
    match value {
        Value::Mailbox(mailbox) => wake_to_free(waits, code, state, names, *mailbox),
        _ => {}
    }
}

// Whoever sleeps at the mailbox may go on, if it may free that one.
fn wake_to_free(
    waits: &mut ReadySets,
    code: &Executable,
    state: &IndexedConfig,
    names: &RefCounts,
    mailbox: u32,
)
    requires order { IsInOrder waits.old }
    requires space { HasSpace waits.old 0 }
    requires told { TellOfEach (program_view code.now.program) state.now.config names.now.times.items }
    ensures { WakesThose (FreesAt (program_view code.now.program) state.now.config mailbox) waits.old waits.new }
{
    match waits.sleeper(mailbox) {
        Some(thread) if state.may_free_now(code, names, thread) => waits.wake(mailbox),
        Some(_) => {}
        None => {}
    }
}
