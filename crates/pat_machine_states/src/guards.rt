// The act of a thread that is enabled.
ghost use Rattle.std.specs.Prelude.{◌≡◌, ℕ, map, option_map};
ghost use Rattle.pat_semantics_spec.specs.Configs.{has_pending};
ghost use Rattle.pat_semantics_spec.specs.Programs.{is_among};
ghost use Rattle.pat_semantics_spec.specs.Steps.{redex};
ghost use Rattle.pat_core.specs.Views.{program_view};
ghost use Rattle.pat_reduce.specs.threads.ThreadViews.{control_view, frame_view, thread_view};
ghost use Rattle.pat_reduce.specs.threads.GuardViews.{guard_view};
ghost use Rattle.pat_reduce.specs.threads.ThreadActs.{guard_at};
ghost use Rattle.pat_reduce.specs.Acts.{act_at, free_act, guard_act, may_free, plain_act};
ghost use Rattle.pat_reduce.specs.Views.{act_view};
ghost use Rattle.pat_machine_indexes.specs.refcounts.Counting.{TellsAlone};
ghost use Rattle.pat_machine_indexes.specs.refcounts.Telling.{names_alone, says_alone};
ghost use Rattle.pat_machine_states.specs.Alone.{GuardsAlone, IsReachedAlone};

use crate::IndexedConfig;
use pat_machine_indexes::{Counted, first_message};
use pat_reduce::{Act, Control, GuardRef, ThreadState, guard_of, plain_act};
use pat_reduce_values::Executable;

impl IndexedConfig {
    // The act of a thread with this state, where the counts tell whether nothing else reaches the mailbox that it may free.
    pub(crate) fn act_of(
        &self,
        code: &Executable,
        state: &ThreadState,
        counted: Counted<'_>,
    ) -> Option<Act>
        ensures { (t : ℕ) → TellsAlone (program_view code.now.program) self.now.config t (thread_view state.now)
            (says_alone (program_view code.now.program) counted.entry (thread_view state.now))
            → option_map act_view result ≡ act_at self.now.config t
            (guard_at (redex (program_view code.now.program) (control_view state.now.control)))
            (plain_act (program_view code.now.program) (redex (program_view code.now.program) (control_view state.now.control))
            (map frame_view state.now.frames)) }
    {
        match guard_of(code, &state.control) {
            Some(guard) => self.guard_act(&guard, &state.control, counted),
            None => plain_act(code, state),
        }
    }

    pub(crate) fn guard_act(
        &self,
        guard: &GuardRef<'_>,
        control: &Control,
        counted: Counted<'_>,
    ) -> Option<Act>
        ensures { (t : ℕ) → GuardsAlone self.now.config t (guard_view guard.now)
            (names_alone counted.entry (control_view control.now) guard.now.mailbox)
            → option_map act_view result ≡ guard_act self.now.config t (guard_view guard.now) }
    {
        match first_message(&self.mailboxes, guard) {
            Some(number) => Some(Act::Receive(number)),
            None => self.free_act(guard, control, counted),
        }
    }

    // The free of the mailbox that is guarded, where it may be freed. Counts are asked only where it is live and has no message.
    pub(crate) fn free_act(
        &self,
        guard: &GuardRef<'_>,
        control: &Control,
        counted: Counted<'_>,
    ) -> Option<Act>
        ensures { (t : ℕ) → GuardsAlone self.now.config t (guard_view guard.now)
            (names_alone counted.entry (control_view control.now) guard.now.mailbox)
            → option_map act_view result ≡ free_act self.now.config t (guard_view guard.now) guard.now.free }
    {
        match guard.free {
            Some(_) => {
                if self.may_free(guard.mailbox, control, counted) {
                    Some(Act::Free)
                } else {
                    None
                }
            }
            None => None,
        }
    }

    // Whether the mailbox may be freed by a thread with this control.
    fn may_free(&self, mailbox: u32, control: &Control, counted: Counted<'_>) -> bool
        ensures { (t : ℕ) → IsReachedAlone self.now.config t mailbox (names_alone counted.entry (control_view control.now) mailbox)
            → result ≡ may_free self.now.config t mailbox }
    {
        self.is_live(mailbox) && !self.has_pending(mailbox) && counted.names_alone(control, mailbox)
    }

    /// Whether a mailbox is live. It takes no memory.
    pub fn is_live(&self, mailbox: u32) -> bool
        ensures { result ≡ is_among mailbox self.now.config.live }
    {
        self.mailboxes.is_live(mailbox)
    }

    /// Whether a message is pending in a mailbox. It takes no memory.
    pub fn has_pending(&self, mailbox: u32) -> bool
        ensures { result ≡ has_pending mailbox self.now.config.messages }
    {
        self.mailboxes.is_live(mailbox) && self.mailboxes.len(mailbox) > 0
    }
}
