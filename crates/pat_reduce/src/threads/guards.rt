// Guards: which messages they take, and how they go on.
ghost use Rattle.std.specs.Prelude.{◌≡◌, ◌&&◌, map, length, Some, option_copied, option_map, IfOk};
ghost use Rattle.pat_semantics_spec.specs.Values.{value_at};
ghost use Rattle.pat_semantics_spec.specs.Steps.{redex, clause_for, received};
ghost use Rattle.pat_core.specs.Views.{clause_view, program_view};
ghost use Rattle.pat_reduce.specs.threads.ThreadViews.{control_view, message_view};
ghost use Rattle.pat_reduce_values.specs.ValueViews.{env_view};
ghost use Rattle.pat_reduce.specs.threads.GuardViews.{guard_view};
ghost use Rattle.pat_reduce.specs.threads.ThreadActs.{guard_at, guarding, message_in, takes, clause_takes, takes_option, first_taken, received_by, received_of, redex_received};
ghost use Rattle.pat_reduce_values.specs.Results.{Gives};

use crate::threads::nodes::{core_of, node_of};
use crate::threads::{Control, Message};
use pat_core::{Clause, Core};
use pat_reduce_values::{Executable, StepError, Value, ValueRef, bind, bind_all, copied, value_of};
use pat_sequences::Sequence;
use std::alloc::{AllocError, Global};

/// A guard that a thread stands at, and the mailbox that it is on.
#[derive(Clone, Copy, Drop)]
pub struct GuardRef<'a> {
    pub mailbox: u32,
    pub free: Option<u32>,
    pub receives: &'a [Clause],
    pub env: &'a [(u32, Value)],
}

/// The guard that a thread stands at, if its name has a mailbox.
pub fn guard_of<'a>(code: &'a Executable, control: &'a Control) -> Option<GuardRef<'a>>
    ensures { option_map guard_view result ≡ guard_at (redex (program_view code.now.program) (control_view control.now)) }
{
    match control {
        Control::Node { node, env } => match core_of(code, *node) {
            Some(
                Core::Guard {
                    var,
                    free,
                    receives,
                    ..
                },
            ) => guard_on(env.as_slice(), *var, *free, receives.as_slice()),
            _ => None,
        },
        Control::Returned(_) => None,
    }
}

fn guard_on<'a>(
    env: &'a [(u32, Value)],
    var: u32,
    free: Option<u32>,
    receives: &'a [Clause],
) -> Option<GuardRef<'a>>
    ensures { option_map guard_view result ≡ guarding free (map clause_view receives.now) (env_view env.now)
        (value_at (env_view env.now) var) }
{
    match value_of(env, var) {
        Some(ValueRef::Mailbox(mailbox)) => Some(GuardRef {
            mailbox,
            free,
            receives,
            env,
        }),
        _ => None,
    }
}

/// The number of the first message that the guard takes by its number.
pub fn first_message(guard: &GuardRef<'_>, messages: &[Message]) -> Option<u32>
    ensures { result ≡ option_map (λ m. m.number) (first_taken (guard_view guard.now) (map message_view messages.now)) }
{
    for message in messages {
        if takes_first(guard, messages, message) {
            return Some(message.number);
        }
    }
    None
}

// A number stands for the first message that has it.
fn takes_first(guard: &GuardRef<'_>, messages: &[Message], message: &Message) -> bool
    ensures { result ≡ (takes (guard_view guard.now) (message_view message.now)
        && takes_option (guard_view guard.now) (message_in (map message_view messages.now) message.now.number)) }
{
    takes(guard, message) && takes_number(guard, messages, message.number)
}

fn takes_number(guard: &GuardRef<'_>, messages: &[Message], number: u32) -> bool
    ensures { result ≡ takes_option (guard_view guard.now) (message_in (map message_view messages.now) number) }
{
    match message_of(messages, number) {
        Some(message) => takes(guard, message),
        None => false,
    }
}

/// Whether the guard takes the message.
pub fn takes(guard: &GuardRef<'_>, message: &Message) -> bool
    ensures { result ≡ takes (guard_view guard.now) (message_view message.now) }
{
    match clause_for(guard.receives, message.tag) {
        Some(clause) => clause_takes(clause, guard.mailbox, message),
        None => false,
    }
}

fn clause_takes(clause: &Clause, mailbox: u32, message: &Message) -> bool
    ensures { result ≡ clause_takes mailbox (message_view message.now) (Some (clause_view clause.now)) }
{
    message.mailbox == mailbox && clause.vars.len() == message.values.len()
}

/// The message of this number.
pub fn message_of(messages: &[Message], number: u32) -> Option<&Message>
    ensures { option_map message_view (option_copied result) ≡ message_in (map message_view messages.now) number }
{
    for message in messages {
        if number == message.number {
            return Some(message);
        }
    }
    None
}

fn clause_for(clauses: &[Clause], tag: u8) -> Option<&Clause>
    ensures { option_map clause_view (option_copied result) ≡ clause_for tag (map clause_view clauses.now) }
{
    for clause in clauses {
        if tag == clause.tag {
            return Some(clause);
        }
    }
    None
}

/// The control that goes on with a message.
pub fn after_receive(
    alloc: Global,
    code: &Executable,
    control: &Control,
    messages: &[Message],
    number: u32,
) -> Result<Control, StepError>
    ensures { Gives control_view
        (redex_received (program_view code.now.program) (map message_view messages.now) number
        (redex (program_view code.now.program) (control_view control.now))) result }
{
    match guard_of(code, control) {
        Some(guard) => match message_of(messages, number) {
            Some(message) => go_on_with(alloc, code, &guard, message),
            None => Err(StepError::Disabled),
        },
        None => Err(StepError::Disabled),
    }
}

/// The control that goes on with this message.
pub fn go_on_with(
    alloc: Global,
    code: &Executable,
    guard: &GuardRef<'_>,
    message: &Message,
) -> Result<Control, StepError>
    ensures { Gives control_view (received_of (program_view code.now.program) (guard_view guard.now)
        (Some (message_view message.now))) result }
{
    match clause_for(guard.receives, message.tag) {
        Some(clause) => {
            if !clause_takes(clause, guard.mailbox, message) {
                return Err(StepError::Disabled);
            }
            let env = received_env(alloc, guard.env, clause, message)?;
            Ok(node_of(code, clause.body, env))
        }
        None => Err(StepError::Disabled),
    }
}

// The values with the payloads and what is left of the mailbox under their names.
fn received_env(
    alloc: Global,
    env: &[(u32, Value)],
    clause: &Clause,
    message: &Message,
) -> Result<Sequence<(u32, Value)>, AllocError>
    requires { length clause.now.vars ≡ length message.now.values }
    ensures { IfOk result (λ own. env_view own ≡ received (clause_view clause.now) (message_view message.now) (env_view env.now)) }
{
    let mut own = copied(alloc, env)?;
    bind_all(
        alloc,
        &mut own,
        clause.vars.as_slice(),
        message.values.as_slice(),
    )?;
    bind(&mut own, clause.from, Value::Mailbox(message.mailbox))?;
    Ok(own)
}
