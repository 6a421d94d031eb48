// Which mailboxes threads and messages refer to.
ghost use Rattle.std.specs.Prelude.{◌≡◌, map};
ghost use Rattle.std.specs.List.{list_any};
ghost use Rattle.pat_semantics_spec.specs.Configs.{env_refers, control_refers, thread_refers, message_refers};
ghost use Rattle.pat_reduce_values.specs.ValueViews.{env_view};
ghost use Rattle.pat_reduce.specs.threads.ThreadViews.{control_view, frame_view, message_view, thread_view};

use crate::threads::{Control, Frame, Message, ThreadState};
use pat_reduce_values::Value;

/// Whether the thread refers to the mailbox.
pub fn thread_refers(state: &ThreadState, mailbox: u32) -> bool
    ensures { result ≡ thread_refers mailbox (thread_view state.now) }
{
    control_refers(&state.control, mailbox) || frames_refer(state.frames.as_slice(), mailbox)
}

fn control_refers(control: &Control, mailbox: u32) -> bool
    ensures { result ≡ control_refers mailbox (control_view control.now) }
{
    match control {
        Control::Node { env, .. } => env_refers(env.as_slice(), mailbox),
        Control::Returned(value) => value.is_mailbox(mailbox),
    }
}

fn env_refers(env: &[(u32, Value)], mailbox: u32) -> bool
    ensures { result ≡ env_refers mailbox (env_view env.now) }
{
    for entry in env {
        if entry.1.is_mailbox(mailbox) {
            return true;
        }
    }
    false
}

/// Whether the message has the mailbox among its values.
pub fn message_refers(message: &Message, mailbox: u32) -> bool
    ensures { result ≡ message_refers mailbox (message_view message.now) }
{
    for value in message.values.as_slice() {
        if value.is_mailbox(mailbox) {
            return true;
        }
    }
    false
}

fn frames_refer(frames: &[Frame], mailbox: u32) -> bool
    ensures { result ≡ list_any (λ f. env_refers mailbox f.env) (map frame_view frames.now) }
{
    for frame in frames {
        if env_refers(frame.env.as_slice(), mailbox) {
            return true;
        }
    }
    false
}
