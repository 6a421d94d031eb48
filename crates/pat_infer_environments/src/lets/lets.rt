// Lets whose body has been walked, and lets whose parts have been.
ghost use Rattle.std.specs.Prelude.{◌≡◌, ◌+◌, length, option_map, IfOk};
ghost use Rattle.std.specs.List.{list_all};
ghost use Rattle.std.specs.Map.{keys_of};
ghost use Rattle.pat_semantics_spec.specs.Programs.{node_at};
ghost use Rattle.pat_type_schemes_spec.specs.NodeTypes.{need_of};
ghost use Rattle.pat_infer_spec.specs.Constraints.{AtNode, OrderRule, DoubleRule, each_unless};
ghost use Rattle.pat_infer_spec.specs.Needs.{names_of_two};
ghost use Rattle.pat_infer_spec.specs.BothParts.{in_order, one_receives};
ghost use Rattle.pat_infer_spec.specs.Walk.{asked_as as asked_as_of, asked_of as asked_of_node, name_need, let_findings};
ghost use Rattle.pat_core.specs.Views.{kind_view, program_view};
ghost use Rattle.pat_types.specs.Views.{type_view, result_view, needs_view};
ghost use Rattle.pat_infer_problems.specs.Results.{Meets};
ghost use Rattle.pat_infer_environments.specs.Combining.{need_ref};
ghost use Rattle.pat_infer_environments.specs.lets.Lets.{own_let};
ghost use Rattle.pat_infer_problems.specs.Walked.{Infers};

use crate::gathering::gather_let;
use crate::looking::{find_next, first_place};
use crate::{find, is_receiver};
use pat_core::{Kind, Program};
use pat_infer_problems::{InferError, Problem, Rule, check_node};
use pat_patterns::Pattern;
use pat_primitives::{Base, Polarity};
use pat_sequences::Sequence;
use pat_types::{MailboxType, TypeOf, join_usage};
use std::alloc::{AllocError, Global};

/// What a bound part is asked for, where the body needs this of the name: `I!1` where it needs nothing.
pub fn asked_of(
    program: &Program,
    part: u32,
    name: Option<u32>,
    body: &[(u32, MailboxType)],
) -> Result<TypeOf, AllocError>
    ensures { IfOk result (λ t. result_view t
        ≡ asked_of_node (node_at (program_view program.now) part) (name_need name (needs_view body.now))) }
{
    let need = needed_of(name, body);
    match program.nodes.as_slice().get(part as usize) {
        None => Ok(TypeOf::Base(Base::Unit)),
        Some(there) => asked_as(there.kind, need),
    }
}

fn needed_of(name: Option<u32>, body: &[(u32, MailboxType)]) -> Option<&MailboxType>
    ensures { need_ref result ≡ name_need name (needs_view body.now) }
{
    match name {
        Some(variable) => find(body, variable as usize),
        None => None,
    }
}

fn asked_as(kind: Kind, need: Option<&MailboxType>) -> Result<TypeOf, AllocError>
    ensures { IfOk result (λ t. result_view t ≡ asked_as_of (kind_view kind) (need_ref need.entry)) }
{
    match kind {
        Kind::Unit => Ok(TypeOf::Base(Base::Unit)),
        Kind::Bool => Ok(TypeOf::Base(Base::Bool)),
        Kind::Int => Ok(TypeOf::Base(Base::Int)),
        Kind::Str => Ok(TypeOf::Base(Base::Str)),
        Kind::Mailbox(interface) => match need {
            None => Ok(TypeOf::Mailbox {
                interface,
                polarity: Polarity::Sending,
                pattern: Pattern::One,
            }),
            Some(of) => {
                let pattern = of.pattern.copy()?;
                Ok(TypeOf::Mailbox {
                    interface,
                    polarity: of.polarity,
                    pattern,
                })
            }
        },
    }
}

/// The rules of the let at a node, and what it needs, from what its bound part needs and what its body needs beside the name.
#[tactic(auto, using(pat_infer_problems::proofs::Joining::in_order))]
pub fn join_let(
    alloc: Global,
    program: &Program,
    node: u32,
    bound: &[(u32, MailboxType)],
    body: Sequence<(u32, MailboxType)>,
    problem: &mut Problem,
) -> Result<Sequence<(u32, MailboxType)>, InferError>
    ensures { Infers program.now problem.old problem.new result
        (own_let node (1 + length problem.old.vars) (needs_view bound.now) (needs_view body)) }
{
    check_let(program, node, bound, body.as_slice())?;
    let needs = gather_let(alloc, program, node, bound, body, problem)?;
    Ok(needs)
}

/// The rules of the let at a node: the first that is broken is the one that is answered.
#[tactic(auto, using(pat_infer_problems::proofs::Joining::in_order))]
fn check_let(
    program: &Program,
    node: u32,
    bound: &[(u32, MailboxType)],
    body: &[(u32, MailboxType)],
) -> Result<(), InferError>
    ensures { Meets program.now result (let_findings node (needs_view bound.now) (needs_view body.now)) }
{
    check_order(program, node, bound, body)?;
    check_double(program, node, bound, body)
}

fn check_order(
    program: &Program,
    node: u32,
    bound: &[(u32, MailboxType)],
    body: &[(u32, MailboxType)],
) -> Result<(), InferError>
    ensures { Meets program.now result (each_unless
        (λ z. in_order (need_of (needs_view bound.now) z) (need_of (needs_view body.now) z)) OrderRule (λ z. AtNode node)
        (names_of_two (needs_view bound.now) (needs_view body.now))) }
{
    check_node(program, are_in_order(bound, body), Rule::Order, node)
}

/// Whether the needs of both parts are in order. Only those of the bound part are looked at, since others are.
fn are_in_order(bound: &[(u32, MailboxType)], body: &[(u32, MailboxType)]) -> bool
    ensures { result ≡ list_all (λ z. in_order (need_of (needs_view bound.now) z) (need_of (needs_view body.now) z))
        (keys_of (needs_view bound.now)) }
{
    let mut in_bound = first_place();
    let mut in_body = first_place();
    for (name, _) in bound {
        let one = find_next(bound, &mut in_bound, *name);
        let other = find_next(body, &mut in_body, *name);
        if !is_in_order(one, other) {
            return false;
        }
    }
    true
}

/// Whether the usages join: what the bound part needs as returnable, the body doesn't need.
fn is_in_order(bound: Option<&MailboxType>, body: Option<&MailboxType>) -> bool
    ensures { result ≡ in_order (need_ref bound.entry) (need_ref body.entry) }
{
    match (bound, body) {
        (Some(bound), Some(body)) => join_usage(bound.usage, body.usage).is_some(),
        _ => true,
    }
}

fn check_double(
    program: &Program,
    node: u32,
    bound: &[(u32, MailboxType)],
    body: &[(u32, MailboxType)],
) -> Result<(), InferError>
    ensures { Meets program.now result (each_unless
        (λ z. one_receives (need_of (needs_view bound.now) z) (need_of (needs_view body.now) z)) DoubleRule (λ z. AtNode node)
        (names_of_two (needs_view bound.now) (needs_view body.now))) }
{
    check_node(program, receive_once(bound, body), Rule::Double, node)
}

/// Whether one part at most receives from each variable. Only those of the bound part are looked at, since of others it is so.
fn receive_once(bound: &[(u32, MailboxType)], body: &[(u32, MailboxType)]) -> bool
    ensures { result ≡ list_all (λ z. one_receives (need_of (needs_view bound.now) z) (need_of (needs_view body.now) z))
        (keys_of (needs_view bound.now)) }
{
    let mut in_bound = first_place();
    let mut in_body = first_place();
    for (name, _) in bound {
        let one = find_next(bound, &mut in_bound, *name);
        let other = find_next(body, &mut in_body, *name);
        if !receives_once(one, other) {
            return false;
        }
    }
    true
}

/// Not both parts receive.
fn receives_once(bound: Option<&MailboxType>, body: Option<&MailboxType>) -> bool
    ensures { result ≡ one_receives (need_ref bound.entry) (need_ref body.entry) }
{
    match (bound, body) {
        (Some(bound), Some(body)) => !(is_receiver(bound.polarity) && is_receiver(body.polarity)),
        _ => true,
    }
}
