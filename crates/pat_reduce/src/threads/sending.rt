// The messages that are sent, the threads that are spawned, and the mailboxes that are made.
ghost use Rattle.std.specs.Prelude.{◌≡◌, map};
ghost use Rattle.pat_semantics_spec.specs.Values.{eval_all, value_at};
ghost use Rattle.pat_semantics_spec.specs.Steps.{redex};
ghost use Rattle.pat_core.specs.Views.{expr_view, program_view};
ghost use Rattle.pat_reduce.specs.threads.ThreadViews.{control_view, message_view};
ghost use Rattle.pat_reduce_values.specs.ValueViews.{env_view};
ghost use Rattle.pat_reduce.specs.threads.ThreadActs.{is_new, message_to, redex_message, spawned};
ghost use Rattle.pat_reduce_values.specs.Results.{Gives};

use crate::threads::nodes::{core_of, node_with};
use crate::threads::{Control, Message};
use pat_core::{Core, Expr};
use pat_reduce_values::{Executable, StepError, Value, ValueRef, value_of, values_of};
use std::alloc::Global;

/// Whether a thread makes a mailbox next.
pub fn makes_mailbox(code: &Executable, control: &Control) -> bool
    ensures { result ≡ is_new (redex (program_view code.now.program) (control_view control.now)) }
{
    match control {
        Control::Node { node, .. } => matches!(core_of(code, *node), Some(Core::New(_))),
        Control::Returned(_) => false,
    }
}

/// The message that a thread sends next, under this number.
pub fn next_message(
    alloc: Global,
    code: &Executable,
    control: &Control,
    number: u32,
) -> Result<Message, StepError>
    ensures { Gives message_view (redex_message number (redex (program_view code.now.program) (control_view control.now))) result }
{
    match control {
        Control::Node { node, env } => match core_of(code, *node) {
            Some(Core::Send { target, tag, args }) => {
                message_for(
                    alloc,
                    env.as_slice(),
                    *target,
                    *tag,
                    args.as_slice(),
                    number,
                )
            }
            _ => Err(StepError::Disabled),
        },
        Control::Returned(_) => Err(StepError::Disabled),
    }
}

fn message_for(
    alloc: Global,
    env: &[(u32, Value)],
    target: u32,
    tag: u8,
    args: &[Expr],
    number: u32,
) -> Result<Message, StepError>
    ensures { Gives message_view (message_to number tag (value_at (env_view env.now) target)
        (eval_all (env_view env.now) (map expr_view args.now))) result }
{
    match value_of(env, target) {
        Some(ValueRef::Mailbox(mailbox)) => Ok(Message {
            number,
            mailbox,
            tag,
            values: values_of(alloc, args, env)?,
        }),
        _ => Err(StepError::Disabled),
    }
}

/// The control of the thread that a thread spawns next.
pub fn next_thread(
    alloc: Global,
    code: &Executable,
    control: &Control,
) -> Result<Control, StepError>
    ensures { Gives control_view
        (spawned (program_view code.now.program) (redex (program_view code.now.program) (control_view control.now))) result }
{
    match control {
        Control::Node { node, env } => match core_of(code, *node) {
            Some(Core::Spawn(body)) => Ok(node_with(alloc, code, *body, env.as_slice())?),
            _ => Err(StepError::Disabled),
        },
        Control::Returned(_) => Err(StepError::Disabled),
    }
}
