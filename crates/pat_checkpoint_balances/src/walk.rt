// One walk over all places of a configuration that may hold a mailbox.
ghost use Rattle.std.specs.Prelude.{◌≡◌, ◌++◌, ℕ, map, option_map, option_and_then, slice_get, IsTrue, IfOk, OnOk};
ghost use Rattle.pat_semantics_spec.specs.Programs.{Program as Programs, tag_at};
ghost use Rattle.pat_semantics_spec.specs.WellFormed.{WellFormed};
ghost use Rattle.pat_type_system_spec.specs.Holdings.{as_holding, type_at, bound_of as bound_of_let, wanted, declared_types};
ghost use Rattle.pat_type_system_spec.specs.Typings.{payload_sort};
ghost use Rattle.pat_type_schemes_spec.specs.NodeTypes.{need_of};
ghost use Rattle.pat_derivation_spec.specs.Derivations.{written_typing};
ghost use Rattle.pat_core.specs.Views.{sort_view, program_view};
ghost use Rattle.pat_types.specs.Views.{type_view, result_view, needs_view};
ghost use Rattle.pat_derivations.specs.Views.{derivation_view};
ghost use Rattle.pat_reduce_values.specs.ValueViews.{value_view, env_view};
ghost use Rattle.pat_reduce.specs.threads.ThreadViews.{control_view, frame_view, thread_view, message_view};
ghost use Rattle.pat_reduce.specs.Views.{threads_view, config_view};
ghost use Rattle.pat_checkpoint_spec.specs.Checkpoints.{interface_at, interfaces_of};
ghost use Rattle.pat_checkpoint_spec.specs.Numbers.{ascends, numbers_hold};
ghost use Rattle.pat_checkpoint_spec.specs.HoldingsInOrder.{held_as, env_holds, control_holds, frames_hold, threads_hold, payload_holds, messages_hold_types, all_held as all_held_by};
ghost use Rattle.pat_checkpoint_data.specs.Views.{checkpoint_view};
ghost use Rattle.pat_checkpoint_balances.specs.Tables.{AreTables, needs_of, env_at, frames_hold_in_turn, thread_holds};

use crate::bounds::{bound_of, bounds_of};
use crate::places::interface_of;
use pat_checkpoint_data::Checkpoint;
use pat_core::{Program, Sort};
use pat_derivations::{Derivation, LookUps};
use pat_obligations::{line_of, tag_of};
use pat_reduce::{Control, Frame, Message, ThreadState, Value};
use pat_sequences::{Sequence, Stack};
use pat_types::{MailboxType, TypeOf, Usage, payload_type};
use std::alloc::{AllocError, Global};

/// What is looked up on the walk: the environments of the derivation's nodes, and the bound part of the let of each body.
#[derive(Drop)]
pub struct Tables<'a> {
    pub envs: Sequence<LookUps<'a>>,
    pub bounds: Sequence<Option<u32>>,
}

/// The mailboxes that places hold, with their types, in the order of a text.
pub fn all_held(
    alloc: Global,
    program: &Program,
    derivation: &Derivation,
    checkpoint: &Checkpoint,
) -> Result<Sequence<(u32, MailboxType)>, AllocError>
    requires well { WellFormed (program_view program.now) }
    requires numbers { IsTrue (numbers_hold (config_view checkpoint.now.config)) }
    ensures { IfOk result (λ held. needs_view held
        ≡ all_held_by (program_view program.now) (written_typing (program_view program.now) (derivation_view derivation.now))
        (interfaces_of (checkpoint_view checkpoint.now)) (config_view checkpoint.now.config)) }
{
    let tables = tables_of(alloc, program, derivation)?;
    let mut held = Sequence::new(alloc);
    add_messages(&mut held, program, checkpoint)?;
    for (_, thread) in checkpoint.config.threads.as_slice() {
        add_thread(&mut held, derivation, &tables, thread)?;
    }
    Ok(held)
}

fn tables_of<'a>(
    alloc: Global,
    program: &Program,
    derivation: &'a Derivation,
) -> Result<Tables<'a>, AllocError>
    requires { WellFormed (program_view program.now) }
    ensures { IfOk result (λ tables. AreTables (program_view program.now) (derivation_view derivation.now) tables) }
{
    let envs = envs_of(alloc, derivation)?;
    let bounds = bounds_of(alloc, program)?;
    Ok(Tables { envs, bounds })
}

// The environments of all nodes, for look-ups.
fn envs_of<'a>(
    alloc: Global,
    derivation: &'a Derivation,
) -> Result<Sequence<LookUps<'a>>, AllocError>
    ensures { IfOk result (λ envs. needs_of envs ≡ map (λ l. l.of.needs) (derivation_view derivation.now).lines) }
{
    let mut envs = Sequence::new(alloc);
    for line in derivation.nodes.as_slice() {
        envs.push(LookUps::new(line.of.env.as_slice()))?;
    }
    Ok(envs)
}

// ---- what is there

// Adds the mailbox, if the value is one and has a type.
fn add_value(
    held: &mut Sequence<(u32, MailboxType)>,
    value: &Value,
    of: Option<MailboxType>,
) -> Result<(), AllocError>
    ensures { OnOk result (needs_view held.new ≡ needs_view held.old ++ held_as (value_view value.now) (option_map type_view of)) }
{
    let Value::Mailbox(mailbox) = value else {
        return Ok(());
    };
    match of {
        None => Ok(()),
        Some(of) => held.push((*mailbox, of)),
    }
}

// Adds what an environment holds, where its variables have these types.
fn add_values(
    held: &mut Sequence<(u32, MailboxType)>,
    types: &LookUps<'_>,
    env: &[(u32, Value)],
) -> Result<(), AllocError>
    ensures { OnOk result (needs_view held.new ≡ needs_view held.old
        ++ env_holds (need_of (needs_view types.now.env.now)) (env_view env.now)) }
{
    let mut near = 0;
    for (variable, value) in env {
        let of = types.copy_of(&mut near, *variable)?;
        add_value(held, value, of)?;
    }
    Ok(())
}

// Adds what an environment of a node holds.
fn add_env(
    held: &mut Sequence<(u32, MailboxType)>,
    envs: &[LookUps<'_>],
    node: u32,
    env: &[(u32, Value)],
) -> Result<(), AllocError>
    ensures { OnOk result (needs_view held.new ≡ needs_view held.old ++ env_holds (env_at (needs_of envs.now) node) (env_view env.now)) }
{
    match envs.get(node as usize) {
        None => Ok(()),
        Some(types) => add_values(held, types, env),
    }
}

// ---- threads

// The type with which a returned mailbox is held: as a demand holds it, in a private part of `pat_obligations`, whose way in is a node.
fn returnable(of: &TypeOf) -> Result<Option<MailboxType>, AllocError>
    ensures { IfOk result (λ o. option_map type_view o ≡ as_holding (result_view of.now)) }
{
    match of {
        TypeOf::Base(_) => Ok(None),
        TypeOf::Mailbox {
            interface,
            polarity,
            pattern,
        } => {
            let pattern = pattern.copy()?;
            Ok(Some(MailboxType {
                interface: *interface,
                polarity: *polarity,
                pattern,
                usage: Usage::Returnable,
            }))
        }
    }
}

// The type with which the part that is bound by the let with this body gives a mailbox.
fn given_to(
    derivation: &Derivation,
    tables: &Tables<'_>,
    body: u32,
) -> Result<Option<MailboxType>, AllocError>
    ensures { IfOk result (λ o. (p : Programs) → AreTables p (derivation_view derivation.now) tables.now
        → option_map type_view o ≡ as_holding (type_at (written_typing p (derivation_view derivation.now)) (bound_of_let p.nodes body))) }
{
    let Some(bound) = bound_of(tables.bounds.as_slice(), body) else {
        return Ok(None);
    };
    match line_of(derivation, bound) {
        None => Ok(None),
        Some(line) => returnable(&line.of.result),
    }
}

// Adds what a control holds above these frames.
fn add_control(
    held: &mut Sequence<(u32, MailboxType)>,
    derivation: &Derivation,
    tables: &Tables<'_>,
    control: &Control,
    frames: &Stack<Frame>,
) -> Result<(), AllocError>
    ensures { OnOk result ((p : Programs) → AreTables p (derivation_view derivation.now) tables.now
        → needs_view held.new ≡ needs_view held.old
        ++ control_holds p (written_typing p (derivation_view derivation.now)) (control_view control.now) (map frame_view frames.now)) }
{
    match control {
        Control::Node { node, env } => {
            add_env(held, tables.envs.as_slice(), *node, env.as_slice())
        }
        Control::Returned(value) => match frames.top() {
            None => Ok(()),
            Some(frame) => {
                let of = given_to(derivation, tables, frame.body)?;
                add_value(held, value, of)
            }
        },
    }
}

// Adds what frames hold, which are given from the last one up.
fn add_frames(
    held: &mut Sequence<(u32, MailboxType)>,
    envs: &[LookUps<'_>],
    frames: &[Frame],
) -> Result<(), AllocError>
    ensures { OnOk result (needs_view held.new ≡ needs_view held.old
        ++ frames_hold_in_turn (needs_of envs.now) (map frame_view frames.now)) }
{
    for frame in frames {
        add_env(held, envs, frame.body, frame.env.as_slice())?;
    }
    Ok(())
}

fn add_thread(
    held: &mut Sequence<(u32, MailboxType)>,
    derivation: &Derivation,
    tables: &Tables<'_>,
    thread: &ThreadState,
) -> Result<(), AllocError>
    ensures { OnOk result ((p : Programs) → AreTables p (derivation_view derivation.now) tables.now
        → needs_view held.new ≡ needs_view held.old
        ++ thread_holds p (written_typing p (derivation_view derivation.now)) (thread_view thread.now)) }
{
    add_control(held, derivation, tables, &thread.control, &thread.frames)?;
    add_frames(held, tables.envs.as_slice(), thread.frames.as_slice())?;
    Ok(())
}

// ---- messages

// The type of the payload at a place, if it is a mailbox.
fn payload_at(payloads: &[Sort], place: usize) -> Result<Option<MailboxType>, AllocError>
    ensures { IfOk result (λ o. option_map type_view o ≡ option_and_then payload_sort (slice_get (map sort_view payloads.now) place)) }
{
    match payloads.get(place) {
        None => Ok(None),
        Some(sort) => payload_type(sort),
    }
}

fn add_payloads(
    held: &mut Sequence<(u32, MailboxType)>,
    payloads: &[Sort],
    values: &[Value],
) -> Result<(), AllocError>
    ensures { OnOk result (needs_view held.new ≡ needs_view held.old
        ++ payload_holds (λ k. option_and_then payload_sort (slice_get (map sort_view payloads.now) k)) 0 (map value_view values.now)) }
{
    for place in 0..values.len() {
        let of = payload_at(payloads, place)?;
        add_value(held, &values[place], of)?;
    }
    Ok(())
}

fn add_message(
    held: &mut Sequence<(u32, MailboxType)>,
    program: &Program,
    interface: u32,
    message: &Message,
) -> Result<(), AllocError>
    ensures { OnOk result (needs_view held.new ≡ needs_view held.old
        ++ payload_holds (declared_types (tag_at (program_view program.now) interface (message_view message.now).tag)) 0
        (message_view message.now).values) }
{
    match tag_of(program, interface, message.tag) {
        None => Ok(()),
        Some(declared) => {
            add_payloads(
                held,
                declared.payloads.as_slice(),
                message.values.as_slice(),
            )
        }
    }
}

fn add_messages(
    held: &mut Sequence<(u32, MailboxType)>,
    program: &Program,
    checkpoint: &Checkpoint,
) -> Result<(), AllocError>
    requires { IsTrue (ascends 0 checkpoint.now.config.live) }
    ensures { OnOk result (needs_view held.new ≡ needs_view held.old
        ++ messages_hold_types (program_view program.now) (interfaces_of (checkpoint_view checkpoint.now))
        (config_view checkpoint.now.config).messages) }
{
    let live = checkpoint.config.live.as_slice();
    let interfaces = checkpoint.interfaces.as_slice();
    for message in checkpoint.config.messages.as_slice() {
        let interface = interface_of(live, interfaces, message.mailbox);
        add_message(held, program, interface, message)?;
    }
    Ok(())
}
