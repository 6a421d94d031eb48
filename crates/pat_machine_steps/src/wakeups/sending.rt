// Threads whose next step is a send.
ghost use Rattle.std.specs.Prelude.{◌≡◌, option_map, IsTrue};
ghost use Rattle.pat_core.specs.Views.{program_view};
ghost use Rattle.pat_reduce.specs.threads.ThreadViews.{thread_view};
ghost use Rattle.pat_reduce.specs.Views.{act_view};
ghost use Rattle.pat_machine_indexes.specs.ready_sets.Senders.{is_about_to_send};
ghost use Rattle.pat_machine_steps.specs.shared_steps.Opening.{is_sending};

use pat_reduce::{Act, Control, Core, ThreadState, core_of, plain_act};
use pat_reduce_values::Executable;

/// Whether the thread is found to stand at a send, which is held back where there is no space. Nothing else is looked at.
pub fn is_about_to_send(code: &Executable, state: &ThreadState) -> bool
    ensures { IsTrue result → IsTrue (is_about_to_send (program_view code.now.program) (thread_view state.now)) }
{
    match &state.control {
        Control::Node { node, .. } => {
            // What else stands there isn't evaluated.
            matches!(core_of(code, *node), Some(Core::Send { .. }))
                && is_sending(plain_act(code, state))
        }
        // A value is sent by none.
        Control::Returned(_) => false,
    }
}

fn is_sending(act: Option<Act>) -> bool
    ensures { result ≡ is_sending (option_map act_view act) }
{
    matches!(act, Some(Act::Send))
}
