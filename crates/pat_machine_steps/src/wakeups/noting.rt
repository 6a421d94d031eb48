// Who may go on after a commit, who is about to send, and who sleeps.
ghost use Rattle.std.specs.Prelude.{◌≡◌, option_copied, option_map};
ghost use Rattle.pat_core.specs.Views.{program_view};
ghost use Rattle.pat_reduce.specs.threads.ThreadViews.{message_view};
ghost use Rattle.pat_reduce.specs.Views.{act_view};
ghost use Rattle.pat_machine_laws.specs.refcounts.Counting.{TellOfEach};
ghost use Rattle.pat_machine_indexes.specs.ready_sets.ReadySets.{HasSpace, CanHold, HasRoom};
ghost use Rattle.pat_machine_indexes.specs.ready_sets.Noted.{AreNoted, WereNoted};
ghost use Rattle.pat_machine_steps.specs.shared_steps.Taking.{taken_act, taken_message};

use crate::wakeups::following::{Stepped, follow};
use pat_machine_indexes::ReadySets;
use pat_machine_states::{IndexedConfig, RefCounts, Taken};
use pat_reduce::{Act, Message};
use pat_reduce_values::Executable;

/// Notes who may go on after a thread's steps, who is about to send, and who sleeps. It takes no memory.
pub fn note_threads<'a>(
    waits: &mut ReadySets,
    code: &Executable,
    state: &IndexedConfig,
    names: &RefCounts,
    thread: u32,
    newcomer: u32,
    named: &'a [u32],
    taken: &'a Option<Taken>,
)
    requires space { HasSpace waits.old 2 }
    requires hold { CanHold waits.old 2 }
    requires room { HasRoom waits.old }
    requires told { TellOfEach (program_view code.now.program) state.now.config names.now.times.items }
    requires were { WereNoted (program_view code.now.program) waits.old thread (taken_act taken.now) newcomer state.now.config named.now
        (taken_message taken.now) }
    ensures { AreNoted (program_view code.now.program) state.now.config waits.new.awake.numbers.items waits.new.senders.numbers.items waits.new.sleepers.items }
{
    let stepped = Stepped {
        thread,
        shared: act_of(taken),
        newcomer,
        named,
        received: message_of(taken),
    };
    follow(waits, code, state, names, &stepped);
}

/// The act of a shared step, if there was one.
pub fn act_of(taken: &Option<Taken>) -> Option<Act>
    ensures { option_map act_view result ≡ taken_act taken.now }
{
    match taken {
        Some(taken) => Some(taken.act),
        None => None,
    }
}

// The message that it received, if it did.
fn message_of(taken: &Option<Taken>) -> Option<&Message>
    ensures { option_map message_view (option_copied result) ≡ taken_message taken.now }
{
    match taken {
        Some(taken) => taken.message.as_ref(),
        None => None,
    }
}
