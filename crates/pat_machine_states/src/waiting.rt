// Threads that wait at guards, and what may end that.
ghost use Rattle.std.specs.Prelude.{◌≡◌, ◌+◌, List, [], ◌∷◌, ◌++◌, Some, IfSome, IsTrue, ◌↔◌, option_copied, option_map};
ghost use Rattle.pat_semantics_spec.specs.Configs.{Message as MessageOf};
ghost use Rattle.pat_semantics_spec.specs.Steps.{ActFree, ActReceive};
ghost use Rattle.pat_semantics_laws.specs.Laws.{IsEnabled};
ghost use Rattle.pat_core.specs.Views.{program_view};
ghost use Rattle.pat_reduce.specs.threads.ThreadViews.{message_view};
ghost use Rattle.pat_machine_laws.specs.wakeups.Wakings.{IsWaiting};
ghost use Rattle.pat_machine_indexes.specs.refcounts.Counting.{TellOfEach};

use crate::IndexedConfig;
use pat_machine_indexes::{Counted, RefCounts};
use pat_reduce::{Message, guard_of, takes};
use pat_reduce_values::Executable;

impl IndexedConfig {
    /// The mailbox that the thread waits at, if it is found to have no enabled step. It takes no memory.
    pub fn awaited(&self, code: &Executable, names: &RefCounts, thread: u32) -> Option<u32>
        requires told { TellOfEach (program_view code.now.program) self.now.config names.now.times.items }
        ensures { IfSome result (IsWaiting (program_view code.now.program) self.now.config thread) }
    {
        let state = self.thread(thread)?;
        let guard = guard_of(code, &state.control)?;
        match self.guard_act(&guard, &state.control, Counted::All(names)) {
            Some(_) => None,
            None => Some(guard.mailbox),
        }
    }

    /// Whether the thread may free the mailbox that it stands at a guard on. Only that is looked at. It takes no memory.
    pub fn may_free_now(&self, code: &Executable, names: &RefCounts, thread: u32) -> bool
        requires told { TellOfEach (program_view code.now.program) self.now.config names.now.times.items }
        ensures { IsTrue result ↔ IsEnabled (program_view code.now.program) self.now.config (record { thread = thread; act = ActFree }) }
    {
        let Some(state) = self.thread(thread) else {
            return false;
        };
        let all = Counted::All(names);
        match guard_of(code, &state.control) {
            Some(guard) => self.free_act(&guard, &state.control, all).is_some(),
            None => false,
        }
    }

    /// The mailbox of the last message, where that is the one that was sent last.
    pub fn last_mailbox(&self) -> Option<u32>
        ensures { (ms : List MessageOf) (m : MessageOf) → self.now.config.messages ≡ ms ++ m ∷ []
            → m.number + 1 ≡ self.now.config.next_message → result ≡ Some m.mailbox }
    {
        self.latest
    }

    /// The message that was sent last, where it is pending and the last one. It takes no memory, and no walk.
    pub fn last_message(&self) -> Option<&Message>
        ensures { (ms : List MessageOf) (m : MessageOf) → self.now.config.messages ≡ ms ++ m ∷ []
            → m.number + 1 ≡ self.now.config.next_message → option_map message_view (option_copied result) ≡ Some m }
    {
        let mailbox = self.latest?;
        if !self.mailboxes.is_live(mailbox) {
            return None;
        }
        self.mailboxes.last(mailbox)
    }

    /// Whether the thread may receive the message that was sent last, where that is pending and the last one. It takes no memory, and no walk.
    pub fn receives_last(&self, code: &Executable, thread: u32) -> bool
        ensures { (ms : List MessageOf) (m : MessageOf) → self.now.config.messages ≡ ms ++ m ∷ []
            → m.number + 1 ≡ self.now.config.next_message → IsTrue result
            ↔ IsEnabled (program_view code.now.program) self.now.config (record { thread = thread; act = ActReceive m.number }) }
    {
        let Some(state) = self.placed.thread(thread) else {
            return false;
        };
        let Some(guard) = guard_of(code, &state.control) else {
            return false;
        };
        match self.last_message() {
            Some(message) => takes(&guard, message),
            None => false,
        }
    }
}
