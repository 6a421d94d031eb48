// The third rule: different names are different mailboxes.
ghost use Rattle.std.specs.Prelude.{◌≡◌, ◌∷◌, ◌&&◌, map, List, IsTrue, IfOk, OnOk};
ghost use Rattle.std.specs.List.{list_all};
ghost use Rattle.pat_semantics_spec.specs.Values as values;
ghost use Rattle.pat_type_system_spec.specs.Typed.{mailboxes_of};
ghost use Rattle.pat_reduce_values.specs.ValueViews.{value_view, env_view};
ghost use Rattle.pat_reduce.specs.Views.{config_view, threads_view};
ghost use Rattle.pat_reduce.specs.threads.ThreadViews.{control_view, frame_view, message_view, thread_view};
ghost use Rattle.pat_checkpoint_spec.specs.Numbers.{numbers_hold, value_lives, env_lives, control_lives, thread_lives, message_lives};
ghost use Rattle.pat_checkpoint_spec.specs.Mailboxes.{values_of, mailboxes_differ as mailboxes_differ_by, env_differs as env_differs_by, control_differs as control_differs_by, thread_differs as thread_differs_by, message_differs as message_differs_by};
ghost use Rattle.pat_checkpoint_numbers.specs.Marked.{is_marked, are_new};

use crate::marks::Marks;
use pat_reduce::{Config, Control, Frame, Message, ThreadState, Value};
use std::alloc::{AllocError, Global};

/// Whether in each part different variables name different mailboxes, and so do a message's mailbox and its values. Numbers hold.
pub fn mailboxes_differ(alloc: Global, config: &Config) -> Result<bool, AllocError>
    requires { IsTrue (numbers_hold (config_view config.now)) }
    ensures { IfOk result (λ yes. yes ≡ mailboxes_differ_by (config_view config.now)) }
{
    let mut marks = Marks::new(alloc, config.live.as_slice())?;
    if !threads_differ(&mut marks, config.threads.as_slice())? {
        return Ok(false);
    }
    messages_differ(&mut marks, config.messages.as_slice())
}

fn threads_differ(marks: &mut Marks<'_>, threads: &[(u32, ThreadState)]) -> Result<bool, AllocError>
    requires { IsTrue (list_all (λ e. thread_lives marks.old.live.now e.1) (threads_view threads.now)) }
    ensures live { marks.new.live.now ≡ marks.old.live.now }
    ensures yes { IfOk result (λ yes. yes ≡ list_all (λ e. thread_differs_by e.1) (threads_view threads.now)) }
{
    for (_, state) in threads {
        if !thread_differs(marks, state)? {
            return Ok(false);
        }
    }
    Ok(true)
}

fn thread_differs(marks: &mut Marks<'_>, state: &ThreadState) -> Result<bool, AllocError>
    requires { IsTrue (thread_lives marks.old.live.now (thread_view state.now)) }
    ensures live { marks.new.live.now ≡ marks.old.live.now }
    ensures yes { IfOk result (λ yes. yes ≡ thread_differs_by (thread_view state.now)) }
{
    if !control_differs(marks, &state.control)? {
        return Ok(false);
    }
    frames_differ(marks, state.frames.as_slice())
}

fn control_differs(marks: &mut Marks<'_>, control: &Control) -> Result<bool, AllocError>
    requires { IsTrue (control_lives marks.old.live.now (control_view control.now)) }
    ensures live { marks.new.live.now ≡ marks.old.live.now }
    ensures yes { IfOk result (λ yes. yes ≡ control_differs_by (control_view control.now)) }
{
    match control {
        Control::Node { env, .. } => env_differs(marks, env.as_slice()),
        Control::Returned(_) => Ok(true),
    }
}

fn frames_differ(marks: &mut Marks<'_>, frames: &[Frame]) -> Result<bool, AllocError>
    requires { IsTrue (list_all (λ f. env_lives marks.old.live.now f.env) (map frame_view frames.now)) }
    ensures live { marks.new.live.now ≡ marks.old.live.now }
    ensures yes { IfOk result (λ yes. yes ≡ list_all (λ f. env_differs_by f.env) (map frame_view frames.now)) }
{
    for frame in frames {
        if !env_differs(marks, frame.env.as_slice())? {
            return Ok(false);
        }
    }
    Ok(true)
}

fn env_differs(marks: &mut Marks<'_>, env: &[(u32, Value)]) -> Result<bool, AllocError>
    requires { IsTrue (env_lives marks.old.live.now (env_view env.now)) }
    ensures live { marks.new.live.now ≡ marks.old.live.now }
    ensures yes { IfOk result (λ yes. yes ≡ env_differs_by (env_view env.now)) }
{
    marks.clear()?;
    for (_, value) in env {
        if !is_new(marks, value) {
            return Ok(false);
        }
    }
    Ok(true)
}

fn messages_differ(marks: &mut Marks<'_>, messages: &[Message]) -> Result<bool, AllocError>
    requires { IsTrue (list_all (message_lives marks.old.live.now) (map message_view messages.now)) }
    ensures live { marks.new.live.now ≡ marks.old.live.now }
    ensures yes { IfOk result (λ yes. yes ≡ list_all message_differs_by (map message_view messages.now)) }
{
    for message in messages {
        if !message_differs(marks, message)? {
            return Ok(false);
        }
    }
    Ok(true)
}

fn message_differs(marks: &mut Marks<'_>, message: &Message) -> Result<bool, AllocError>
    requires { IsTrue (message_lives marks.old.live.now (message_view message.now)) }
    ensures live { marks.new.live.now ≡ marks.old.live.now }
    ensures yes { IfOk result (λ yes. yes ≡ message_differs_by (message_view message.now)) }
{
    marks.clear()?;
    marks.mark(message.mailbox);
    for value in message.values.as_slice() {
        if !is_new(marks, value) {
            return Ok(false);
        }
    }
    Ok(true)
}

/// Whether the value is no mailbox that is marked. A mailbox is then marked.
fn is_new(marks: &mut Marks<'_>, value: &Value) -> bool
    requires { IsTrue (value_lives marks.old.live.now (value_view value.now)) }
    ensures live { marks.new.live.now ≡ marks.old.live.now }
    ensures one { (rest : List values.Value)
        → are_new (is_marked marks.old) (mailboxes_of (value_view value.now ∷ rest))
        ≡ (result && are_new (is_marked marks.new) (mailboxes_of rest)) }
{
    let Value::Mailbox(mailbox) = value else {
        return true;
    };
    let marked = marks.is_marked(*mailbox);
    marks.mark(*mailbox);
    !marked
}
