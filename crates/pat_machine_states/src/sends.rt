// Whether a message that is sent next finds a place.
ghost use Rattle.std.specs.Prelude.{◌≡◌, ◌<◌, ℕ, length, Some, IsTrue};
ghost use Rattle.pat_semantics_spec.specs.Configs.{Message as MessageOf};
ghost use Rattle.pat_semantics_spec.specs.Steps.{redex};
ghost use Rattle.pat_core.specs.Views.{program_view};
ghost use Rattle.pat_reduce.specs.threads.ThreadViews.{control_view};
ghost use Rattle.pat_reduce.specs.threads.ThreadActs.{redex_message};
ghost use Rattle.pat_machine_states.specs.Stepping.{SendsToLive};

use crate::IndexedConfig;
use pat_reduce::{Control, Core, core_of};
use pat_reduce_values::{Executable, ValueRef, value_of};

impl IndexedConfig {
    /// Whether there is a place for one more message. It takes no memory.
    pub fn has_place(&self) -> bool
        ensures { IsTrue result → length self.now.config.messages < self.now.places }
    {
        self.mailboxes.pending() < self.mailboxes.room()
    }

    /// Whether the thread sends next, and to a live mailbox. It takes no memory.
    pub fn sends_to_live(&self, code: &Executable, thread: u32) -> bool
        ensures { IsTrue result → SendsToLive (program_view code.now.program) self.now.config thread }
    {
        let Some(state) = self.thread(thread) else {
            return false;
        };
        match target_of(code, &state.control) {
            Some(mailbox) => self.is_live(mailbox),
            None => false,
        }
    }
}

// The mailbox that a thread sends to next.
fn target_of(code: &Executable, control: &Control) -> Option<u32>
    ensures { (n : ℕ) (m : MessageOf) → redex_message n (redex (program_view code.now.program) (control_view control.now)) ≡ Some m
        → result ≡ Some m.mailbox }
{
    match control {
        Control::Node { node, env } => match core_of(code, *node) {
            Some(Core::Send { target, .. }) => match value_of(env.as_slice(), *target) {
                Some(ValueRef::Mailbox(mailbox)) => Some(mailbox),
                _ => None,
            },
            _ => None,
        },
        Control::Returned(_) => None,
    }
}
