// The act of a thread that is open.
ghost use Rattle.std.specs.Prelude.{◌≡◌, ◌&&◌, not, option_map};
ghost use Rattle.pat_core.specs.Views.{program_view};
ghost use Rattle.pat_semantics_spec.specs.Orders.{IsOrdered};
ghost use Rattle.pat_reduce.specs.Acts.{EnabledAct, IsLeast};
ghost use Rattle.pat_reduce.specs.Views.{act_view};
ghost use Rattle.pat_machine_spec.specs.Opens.{has_space};
ghost use Rattle.pat_machine_states.specs.Opening.{OpenAct, is_sending};
ghost use Rattle.pat_machine_states.specs.Alone.{StandsAlone};

use crate::IndexedConfig;
use pat_machine_indexes::Counted;
use pat_reduce::Act;
use pat_reduce_values::Executable;

impl IndexedConfig {
    // The act of the thread that is open, if one is, where the counts tell whether nothing else reaches the mailbox that it may free.
    // A guard receives the first message that it takes.
    pub(crate) fn open_act(
        &self,
        code: &Executable,
        limit: u32,
        thread: u32,
        counted: Counted<'_>,
    ) -> Option<Act>
        requires { StandsAlone (program_view code.now.program) self.now.config thread counted }
        ensures { OpenAct (program_view code.now.program) self.now.config limit thread (option_map act_view result) }
    {
        let act = self.enabled_act(code, thread, counted);
        if self.is_held_back(limit, act) {
            None
        } else {
            act
        }
    }

    // The act of the thread that is enabled, if one is.
    pub(crate) fn enabled_act(
        &self,
        code: &Executable,
        thread: u32,
        counted: Counted<'_>,
    ) -> Option<Act>
        requires { StandsAlone (program_view code.now.program) self.now.config thread counted }
        ensures enabled { EnabledAct (program_view code.now.program) self.now.config thread (option_map act_view result) }
        ensures least { IsOrdered self.now.config
            → IsLeast (program_view code.now.program) self.now.config thread (option_map act_view result) }
    {
        match self.thread(thread) {
            Some(state) => self.act_of(code, state, counted),
            None => None,
        }
    }

    // Whether the act is a send for which there is no space.
    fn is_held_back(&self, limit: u32, act: Option<Act>) -> bool
        ensures { result ≡ (is_sending (option_map act_view act) && not (has_space self.now.config limit)) }
    {
        is_sending(act) && !self.has_space(limit)
    }

    /// Whether one more message may be pending. It takes no memory.
    pub fn has_space(&self, limit: u32) -> bool
        ensures { result ≡ has_space self.now.config limit }
    {
        self.mailboxes.pending() < limit
    }
}

fn is_sending(act: Option<Act>) -> bool
    ensures { result ≡ is_sending (option_map act_view act) }
{
    matches!(act, Some(Act::Send))
}
