// Terms without parts: what they need, and their constraints.
ghost use Rattle.std.specs.Prelude.{◌≡◌, ◌∷◌, ◌||◌, [], map, option_map, is_some, IfOk, OnOk};
ghost use Rattle.pat_type_schemes_spec.specs.NodeTypes.{need_of};
ghost use Rattle.pat_semantics_spec.specs.Faults.{payloads_of};
ghost use Rattle.pat_semantics_spec.specs.Programs.{tag_at};
ghost use Rattle.pat_type_system_spec.specs.Typings.{payload_sort, mailbox_args};
ghost use Rattle.pat_type_system_spec.specs.Holdings.{declared_types};
ghost use Rattle.pat_infer_spec.specs.Constraints.{AtNode, PolarityRule, unless};
ghost use Rattle.pat_infer_spec.specs.Needs.{args_needs as args_needs_of};
ghost use Rattle.pat_infer_spec.specs.Walk.{value_needs as needs_of_value, new_found, result_agrees, result_constraints, send_found, has_twice};
ghost use Rattle.pat_core.specs.Views.{expr_view, tag_view, program_view};
ghost use Rattle.pat_types.specs.Views.{type_view, needs_view, result_view};
ghost use Rattle.pat_infer_problems.specs.signatures.Views.{signature_view};
ghost use Rattle.pat_primitives.specs.Views.{polarity_view};
ghost use Rattle.pat_patterns.specs.Views.{pattern_view};
ghost use Rattle.pat_infer_problems.specs.Views.{placed_constraint};
ghost use Rattle.pat_infer_problems.specs.Results.{Meets};
ghost use Rattle.pat_infer_problems.specs.Growing.{Grows};
ghost use Rattle.pat_infer_terms.specs.Adding.{Adds};
ghost use Rattle.pat_infer_terms.specs.Calls.{signed_call, directed};

use crate::names::same_polarity;
use pat_core::{Expr, Program, TagDecl};
use pat_infer_environments::{Arguments, args_needs, find, put};
use pat_infer_problems::{
    InferError, Problem, Rule, Signature, add_constraint, check_node, node_span,
};
use pat_patterns::Pattern;
use pat_primitives::Polarity;
use pat_sequences::Sequence;
use pat_types::{MailboxType, TypeOf, Usage, payload_types};
use std::alloc::{AllocError, Global};

/// An expression that is asked for a mailbox is a variable, and needs it so.
pub fn value_needs(
    alloc: Global,
    asked: &TypeOf,
    value: &Expr,
) -> Result<Sequence<(u32, MailboxType)>, AllocError>
    ensures { IfOk result (λ needs. needs_view needs ≡ needs_of_value (result_view asked.now) (expr_view value.now)) }
{
    let mut needs = Sequence::new(alloc);
    match (asked, value) {
        (
            TypeOf::Mailbox {
                interface,
                polarity,
                pattern,
            },
            Expr::Var(variable),
        ) => {
            let pattern = pattern.copy()?;
            needs.push((
                *variable,
                MailboxType {
                    interface: *interface,
                    polarity: *polarity,
                    pattern,
                    usage: Usage::Returnable,
                },
            ))?;
            Ok(needs)
        }
        _ => Ok(needs),
    }
}

/// A new mailbox has the empty word, and is asked for as receiving.
pub fn constrain_new(
    program: &Program,
    node: u32,
    interface: u32,
    asked: &TypeOf,
    problem: &mut Problem,
) -> Result<(), InferError>
    ensures { Adds program.now problem.old problem.new result (new_found node interface (result_view asked.now)).constraints
        (new_found node interface (result_view asked.now)).findings }
{
    match asked {
        TypeOf::Mailbox {
            polarity: Polarity::Receiving,
            pattern,
            ..
        } => {
            let right = pattern.copy()?;
            add_constraint(
                problem,
                interface,
                Pattern::One,
                right,
                node_span(program, node),
            )?;
            Ok(())
        }
        _ => check_node(program, false, Rule::Polarity, node),
    }
}

/// A call of a function with this signature.
pub fn call_needs(
    alloc: Global,
    program: &Program,
    node: u32,
    signature: &Signature,
    args: &[Expr],
    asked: &TypeOf,
    problem: &mut Problem,
) -> Result<Sequence<(u32, MailboxType)>, InferError>
    ensures found { Adds program.now problem.old problem.new result
        (signed_call node (result_view asked.now) (signature_view signature.now) (map expr_view args.now)).constraints
        (signed_call node (result_view asked.now) (signature_view signature.now) (map expr_view args.now)).findings }
    ensures needs { IfOk result (λ needs. needs_view needs
        ≡ (signed_call node (result_view asked.now) (signature_view signature.now) (map expr_view args.now)).needs) }
{
    let all = args_needs(alloc, signature.params.as_slice(), args)?;
    check_node(program, !all.has_twice, Rule::Alias, node)?;
    constrain_result(program, node, &signature.result, asked, problem)?;
    Ok(all.needs)
}

// A call's result has the polarity that it is asked for; and no fewer words where it is sent to, and no more where it is
// received from.
fn constrain_result(
    program: &Program,
    node: u32,
    given: &TypeOf,
    asked: &TypeOf,
    problem: &mut Problem,
) -> Result<(), InferError>
    ensures { Adds program.now problem.old problem.new result (result_constraints node (result_view given.now) (result_view asked.now))
        (unless (result_agrees (result_view given.now) (result_view asked.now)) PolarityRule (AtNode node)) }
{
    match (given, asked) {
        (
            TypeOf::Mailbox {
                interface,
                polarity,
                pattern,
            },
            TypeOf::Mailbox {
                polarity: wanted,
                pattern: other,
                ..
            },
        ) => {
            check_node(
                program,
                same_polarity(*polarity, *wanted),
                Rule::Polarity,
                node,
            )?;
            let own = pattern.copy()?;
            let other = other.copy()?;
            constrain_patterns(program, node, *interface, *polarity, own, other, problem)?;
            Ok(())
        }
        _ => Ok(()),
    }
}

fn constrain_patterns(
    program: &Program,
    node: u32,
    interface: u32,
    polarity: Polarity,
    own: Pattern,
    other: Pattern,
    problem: &mut Problem,
) -> Result<(), AllocError>
    ensures { OnOk result (Grows problem.old problem.new []
        (placed_constraint program.now (directed node interface (polarity_view polarity) (pattern_view own) (pattern_view other))
        ∷ []) []) }
{
    let span = node_span(program, node);
    match polarity {
        Polarity::Receiving => add_constraint(problem, interface, own, other, span),
        Polarity::Sending => add_constraint(problem, interface, other, own, span),
    }
}

/// What the payloads of a tag of an interface need.
#[tactic(auto, using(crate::proofs::Payloads::needs_by, crate::proofs::Payloads::twice_by))]
fn send_args(
    alloc: Global,
    program: &Program,
    interface: u32,
    tag: u8,
    args: &[Expr],
) -> Result<Arguments, AllocError>
    ensures needs { IfOk result (λ r. needs_view r.needs
        ≡ args_needs_of (declared_types (tag_at (program_view program.now) interface tag)) 0 (map expr_view args.now)) }
    ensures twice { IfOk result (λ r. r.has_twice
        ≡ has_twice (mailbox_args (declared_types (tag_at (program_view program.now) interface tag)) 0 (map expr_view args.now))) }
{
    let types = types_of_tag(alloc, tag_of(program, interface, tag))?;
    args_needs(alloc, types.as_slice(), args)
}

/// Whether the target stands among the payloads, or one of these stands twice.
fn stands_twice(target: u32, all: &Arguments) -> bool
    ensures { result ≡ (is_some (need_of (needs_view all.now.needs) target) || all.now.has_twice) }
{
    find(all.needs.as_slice(), target as usize).is_some() || all.has_twice
}

/// A send of a tag of an interface to a variable.
#[tactic(auto, using(crate::proofs::Payloads::send_twice))]
pub fn send_needs(
    alloc: Global,
    program: &Program,
    node: u32,
    interface: u32,
    target: u32,
    tag: u8,
    args: &[Expr],
) -> Result<Sequence<(u32, MailboxType)>, InferError>
    ensures found { Meets program.now result (send_found node (declared_types (tag_at (program_view program.now) interface tag))
        interface target tag (map expr_view args.now)).findings }
    ensures needs { IfOk result (λ needs. needs_view needs
        ≡ (send_found node (declared_types (tag_at (program_view program.now) interface tag)) interface target tag
        (map expr_view args.now)).needs) }
{
    let mut all = send_args(alloc, program, interface, tag, args)?;
    check_node(program, !stands_twice(target, &all), Rule::Alias, node)?;
    let pattern = Pattern::Tag(tag);
    put(
        &mut all.needs,
        target,
        MailboxType {
            interface,
            polarity: Polarity::Sending,
            pattern,
            usage: Usage::Second,
        },
    )?;
    Ok(all.needs)
}

/// A tag of an interface, if it is declared.
pub fn tag_of(program: &Program, interface: u32, tag: u8) -> Option<&TagDecl>
    ensures { option_map (λ t. tag_view t.now) result ≡ tag_at (program_view program.now) interface tag }
{
    match program.interfaces.as_slice().get(interface as usize) {
        Some(there) => there.tags.as_slice().get(tag as usize),
        None => None,
    }
}

/// The types of a tag's payloads that are mailboxes.
pub fn types_of_tag(
    alloc: Global,
    tag: Option<&TagDecl>,
) -> Result<Sequence<Option<MailboxType>>, AllocError>
    ensures { IfOk result (λ types. map (option_map type_view) types
        ≡ map payload_sort (payloads_of (option_map (λ t. tag_view t.now) tag.entry))) }
{
    match tag {
        Some(tag) => payload_types(alloc, tag.payloads.as_slice()),
        None => Ok(Sequence::new(alloc)),
    }
}
