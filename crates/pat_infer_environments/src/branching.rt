// What a choice or a guard needs of one variable, from what its branches need of it.
ghost use Rattle.std.specs.Prelude.{◌≡◌, ◌+◌, [], ◌∷◌, length, map, option_map, Some, IfOk, OnOk};
ghost use Rattle.pat_words_spec.specs.Patterns.{pat_eq};
ghost use Rattle.pat_semantics_spec.specs.Programs.{Sending};
ghost use Rattle.pat_type_system_spec.specs.Types.{mailbox_type};
ghost use Rattle.pat_infer_spec.specs.Branches.{branches, branches_agree, branch_usage, sum_of_needs, all_by, each_receives, first_need, received_in, pattern_or_one, receives_need, returns_need, sum_on};
ghost use Rattle.pat_patterns.specs.Views.{pattern_view};
ghost use Rattle.pat_types.specs.Views.{type_view, usage_view};
ghost use Rattle.pat_infer_problems.specs.Views.{placed_constraint};
ghost use Rattle.pat_infer_problems.specs.Growing.{Grows};
ghost use Rattle.pat_infer_environments.specs.Combining.{Combines, need_ref, column_view};

use crate::kinds::{is_receiver, is_second};
use pat_core::Program;
use pat_infer_problems::{Problem, VarDecl, add_constraint, add_variable, node_span};
use pat_patterns::{Pattern, sum};
use pat_primitives::Polarity;
use pat_types::{MailboxType, Usage};
use std::alloc::{AllocError, Global};

/// Whether each branch receives from the variable, or none does.
pub fn do_agree(needs: &[Option<&MailboxType>]) -> bool
    ensures { result ≡ branches_agree (column_view needs.now) }
{
    let mut some = false;
    let mut all = true;
    for need in needs {
        if receives(*need) {
            some = true;
        } else {
            all = false;
        }
    }
    !some || all
}

fn receives(need: Option<&MailboxType>) -> bool
    ensures { result ≡ receives_need (need_ref need.entry) }
{
    match need {
        Some(of) => is_receiver(of.polarity),
        None => false,
    }
}

fn returns(need: Option<&MailboxType>) -> bool
    ensures { result ≡ returns_need (need_ref need.entry) }
{
    match need {
        Some(of) => !is_second(of.usage),
        None => false,
    }
}

/// What the choice or guard at a node needs of a variable, from what its branches need.
pub fn join_branches(
    alloc: Global,
    program: &Program,
    node: u32,
    variable: u32,
    needs: &[Option<&MailboxType>],
    problem: &mut Problem,
) -> Result<Option<MailboxType>, AllocError>
    ensures { Combines program.now problem.old problem.new result
        (branches node (1 + length problem.old.vars) variable (column_view needs.now)) }
{
    match first_of(needs) {
        None => Ok(None),
        Some(first) => match first.polarity {
            Polarity::Sending => send_in(alloc, first, needs),
            Polarity::Receiving => { receive_in(program, node, variable, first, needs, problem) }
        },
    }
}

/// The first need that is there.
fn first_of<'a>(needs: &[Option<&'a MailboxType>]) -> Option<&'a MailboxType>
    ensures { need_ref result ≡ first_need (column_view needs.now) }
{
    for need in needs {
        if let Some(of) = need {
            return Some(*of);
        }
    }
    None
}

/// Some branches send.
fn send_in(
    alloc: Global,
    first: &MailboxType,
    needs: &[Option<&MailboxType>],
) -> Result<Option<MailboxType>, AllocError>
    ensures { IfOk result (λ o. option_map type_view o
        ≡ Some (mailbox_type first.now.interface Sending (sum_of_needs (column_view needs.now)) (branch_usage (column_view needs.now)))) }
{
    let pattern = sum_of(alloc, needs)?;
    Ok(Some(MailboxType {
        interface: first.interface,
        polarity: Polarity::Sending,
        pattern,
        usage: usage_of(needs),
    }))
}

/// The sum of the patterns of needs, in order.
fn sum_of(alloc: Global, needs: &[Option<&MailboxType>]) -> Result<Pattern, AllocError>
    ensures { IfOk result (λ e. pattern_view e ≡ sum_of_needs (column_view needs.now)) }
{
    let Some((first, rest)) = needs.split_first() else {
        return Ok(Pattern::One);
    };
    let mut all = pattern_of(*first)?;
    for need in rest {
        let more = pattern_of(*need)?;
        all = sum(alloc, all, more)?;
    }
    Ok(all)
}

/// The pattern of a need, and 1 where there is none.
fn pattern_of(need: Option<&MailboxType>) -> Result<Pattern, AllocError>
    ensures { IfOk result (λ e. pattern_view e ≡ pattern_or_one (need_ref need.entry)) }
{
    match need {
        Some(of) => of.pattern.copy(),
        None => Ok(Pattern::One),
    }
}

/// Returnable where some branch needs it so.
fn usage_of(needs: &[Option<&MailboxType>]) -> Usage
    ensures { usage_view result ≡ branch_usage (column_view needs.now) }
{
    for need in needs {
        if returns(*need) {
            return Usage::Returnable;
        }
    }
    Usage::Second
}

/// All branches receive: by the pattern that each of them has, or by a new variable.
fn receive_in(
    program: &Program,
    node: u32,
    variable: u32,
    first: &MailboxType,
    needs: &[Option<&MailboxType>],
    problem: &mut Problem,
) -> Result<Option<MailboxType>, AllocError>
    ensures { Combines program.now problem.old problem.new result
        (received_in node (1 + length problem.old.vars) variable (type_view first.now) (column_view needs.now)) }
{
    let usage = usage_of(needs);
    if have_all(&first.pattern, needs) {
        let pattern = first.pattern.copy()?;
        return Ok(Some(MailboxType {
            interface: first.interface,
            polarity: Polarity::Receiving,
            pattern,
            usage,
        }));
    }
    let number = add_variable(
        problem,
        VarDecl {
            interface: first.interface,
            polarity: Polarity::Receiving,
            span: node_span(program, node),
        },
    )?;
    add_each(program, node, number, first.interface, needs, problem)?;
    Ok(Some(MailboxType {
        interface: first.interface,
        polarity: Polarity::Receiving,
        pattern: Pattern::Var(number),
        usage,
    }))
}

/// Whether each of the needs has this pattern.
fn have_all(pattern: &Pattern, needs: &[Option<&MailboxType>]) -> bool
    ensures { result ≡ all_by (pattern_view pattern.now) (column_view needs.now) }
{
    for need in needs {
        if !has_pattern(pattern, *need) {
            return false;
        }
    }
    true
}

fn has_pattern(pattern: &Pattern, need: Option<&MailboxType>) -> bool
    ensures { result ≡ pat_eq (pattern_view pattern.now) (pattern_or_one (need_ref need.entry)) }
{
    match need {
        Some(of) => pattern.is_same(&of.pattern),
        None => pattern.is_one(),
    }
}

/// What comes by the variable is a word of each need.
fn add_each(
    program: &Program,
    node: u32,
    number: u32,
    interface: u32,
    needs: &[Option<&MailboxType>],
    problem: &mut Problem,
) -> Result<(), AllocError>
    ensures { OnOk result (Grows problem.old problem.new []
        (map (placed_constraint program.now) (each_receives node number interface (column_view needs.now))) []) }
{
    let span = node_span(program, node);
    for need in needs {
        if let Some(of) = need {
            let right = of.pattern.copy()?;
            add_constraint(problem, interface, Pattern::Var(number), right, span)?;
        }
    }
    Ok(())
}
