// What a let needs of one variable, from what its parts need of it.
ghost use Rattle.std.specs.Prelude.{◌≡◌, ◌+◌, length, option_map, Some, IfOk};
ghost use Rattle.pat_words_spec.specs.Patterns.{prod_of};
ghost use Rattle.pat_semantics_spec.specs.Programs.{Sending};
ghost use Rattle.pat_type_system_spec.specs.Types.{mailbox_type};
ghost use Rattle.pat_infer_spec.specs.BothParts.{both_parts, received_by, parts_joined};
ghost use Rattle.pat_primitives.specs.Views.{polarity_view};
ghost use Rattle.pat_patterns.specs.Views.{pattern_view};
ghost use Rattle.pat_types.specs.Views.{type_view, usage_view};
ghost use Rattle.pat_infer_environments.specs.Combining.{Combines, need_ref};

use crate::kinds::is_receiver;
use pat_core::Program;
use pat_infer_problems::{Problem, VarDecl, add_constraint, add_variable, node_span};
use pat_patterns::{Pattern, product};
use pat_primitives::Polarity;
use pat_types::MailboxType;
use std::alloc::{AllocError, Global};

/// What the let at a node needs of a variable, from what its bound part and its body need.
pub fn join_parts(
    alloc: Global,
    program: &Program,
    node: u32,
    variable: u32,
    bound: Option<&MailboxType>,
    body: Option<&MailboxType>,
    problem: &mut Problem,
) -> Result<Option<MailboxType>, AllocError>
    ensures { Combines program.now problem.old problem.new result
        (both_parts node (1 + length problem.old.vars) variable (need_ref bound.entry) (need_ref body.entry)) }
{
    match (bound, body) {
        (None, None) => Ok(None),
        (Some(bound), None) => {
            let copy = bound.copy()?;
            Ok(Some(copy))
        }
        (None, Some(body)) => {
            let copy = body.copy()?;
            Ok(Some(copy))
        }
        (Some(bound), Some(body)) => {
            join_needs(alloc, program, node, variable, bound, body, problem)
        }
    }
}

fn join_needs(
    alloc: Global,
    program: &Program,
    node: u32,
    variable: u32,
    bound: &MailboxType,
    body: &MailboxType,
    problem: &mut Problem,
) -> Result<Option<MailboxType>, AllocError>
    ensures { Combines program.now problem.old problem.new result
        (parts_joined node (1 + length problem.old.vars) variable (polarity_view bound.now.polarity) (polarity_view body.now.polarity)
        (type_view bound.now) (type_view body.now)) }
{
    match (bound.polarity, body.polarity) {
        (Polarity::Sending, Polarity::Sending) => send_both(alloc, bound, body),
        (Polarity::Sending, Polarity::Receiving) => receive(
            alloc,
            program,
            node,
            variable,
            body,
            &bound.pattern,
            &body.pattern,
            problem,
        ),
        (Polarity::Receiving, _) => receive(
            alloc,
            program,
            node,
            variable,
            body,
            &body.pattern,
            &bound.pattern,
            problem,
        ),
    }
}

/// Both parts send.
fn send_both(
    alloc: Global,
    bound: &MailboxType,
    body: &MailboxType,
) -> Result<Option<MailboxType>, AllocError>
    ensures { IfOk result (λ o. option_map type_view o
        ≡ Some (mailbox_type body.now.interface Sending (prod_of (pattern_view bound.now.pattern) (pattern_view body.now.pattern))
        (usage_view body.now.usage))) }
{
    let first = bound.pattern.copy()?;
    let second = body.pattern.copy()?;
    let pattern = product(alloc, first, second)?;
    Ok(Some(MailboxType {
        interface: body.interface,
        polarity: Polarity::Sending,
        pattern,
        usage: body.usage,
    }))
}

/// A new variable is received by: what is sent, with what is still to come, is a word of what is received.
fn receive(
    alloc: Global,
    program: &Program,
    node: u32,
    variable: u32,
    of: &MailboxType,
    sent: &Pattern,
    received: &Pattern,
    problem: &mut Problem,
) -> Result<Option<MailboxType>, AllocError>
    ensures { Combines program.now problem.old problem.new result
        (received_by node (1 + length problem.old.vars) variable (type_view of.now) (pattern_view sent.now) (pattern_view received.now)) }
{
    let span = node_span(program, node);
    let number = add_variable(
        problem,
        VarDecl {
            interface: of.interface,
            polarity: Polarity::Receiving,
            span,
        },
    )?;
    let sent = sent.copy()?;
    let left = product(alloc, sent, Pattern::Var(number))?;
    let right = received.copy()?;
    add_constraint(problem, of.interface, left, right, span)?;
    Ok(Some(MailboxType {
        interface: of.interface,
        polarity: Polarity::Receiving,
        pattern: Pattern::Var(number),
        usage: of.usage,
    }))
}
