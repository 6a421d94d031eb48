// What terms ask of variables.
ghost use Rattle.std.specs.Prelude.{◌≡◌, ◌++◌, [], map, option_map, IfOk, OnOk};
ghost use Rattle.pat_patterns.specs.Views.{pattern_view};
ghost use Rattle.pat_core.specs.Views.{expr_view, sort_view, tag_view, clause_view};
ghost use Rattle.pat_types.specs.Views.{type_view, result_view, needs_view};
ghost use Rattle.pat_obligations.specs.Listed.{asked_args, asked_arg, asked_value, named_payloads, clause_entries, param_entries, entry_before};

use crate::passing::as_returnable;
use pat_core::{Clause, Expr, Sort, TagDecl};
use pat_derivations::push_without;
use pat_patterns::{Pattern, residual};
use pat_primitives::Polarity;
use pat_sequences::Sequence;
use pat_types::{MailboxType, TypeOf, Usage, payload_type};
use std::alloc::{AllocError, Global};

/// A copy of the type, if there is one.
fn copy_option(of: &Option<MailboxType>) -> Result<Option<MailboxType>, AllocError>
    ensures { IfOk result (λ o. option_map type_view o ≡ option_map type_view of.now) }
{
    match of {
        None => Ok(None),
        Some(of) => Ok(Some(of.copy()?)),
    }
}

/// Puts the entry there, if there is a type.
fn push_entry(
    variable: u32,
    of: Option<MailboxType>,
    out: &mut Sequence<(u32, MailboxType)>,
) -> Result<(), AllocError>
    ensures { OnOk result (needs_view out.new ≡ needs_view out.old ++ entry_before variable (option_map type_view of) []) }
{
    match of {
        None => Ok(()),
        Some(of) => out.push((variable, of)),
    }
}

/// What an argument asks.
fn push_argument(
    of: &Option<MailboxType>,
    argument: &Expr,
    out: &mut Sequence<(u32, MailboxType)>,
) -> Result<(), AllocError>
    ensures { OnOk result (needs_view out.new ≡ needs_view out.old ++ asked_arg (option_map type_view of.now) (expr_view argument.now) []) }
{
    match argument {
        Expr::Var(variable) => {
            let of = copy_option(of)?;
            push_entry(*variable, of, out)
        }
        _ => Ok(()),
    }
}

/// What arguments ask.
#[tactic(auto, using(crate::proofs::Entries::argument_first))]
pub fn push_arguments(
    types: &[Option<MailboxType>],
    arguments: &[Expr],
    out: &mut Sequence<(u32, MailboxType)>,
) -> Result<(), AllocError>
    ensures { OnOk result (needs_view out.new
        ≡ needs_view out.old ++ asked_args (map (option_map type_view) types.now) (map expr_view arguments.now)) }
{
    let mut rest = types;
    for argument in arguments {
        match rest.split_first() {
            None => return Ok(()),
            Some((of, more)) => {
                push_argument(of, argument, out)?;
                rest = more;
            }
        }
    }
    Ok(())
}

/// What an expression of this type asks.
pub fn value_asked(
    alloc: Global,
    of: &TypeOf,
    value: &Expr,
) -> Result<Sequence<(u32, MailboxType)>, AllocError>
    ensures { IfOk result (λ asked. needs_view asked ≡ asked_value (result_view of.now) (expr_view value.now)) }
{
    let mut asked = Sequence::new(alloc);
    match value {
        Expr::Var(variable) => {
            let of = as_returnable(of)?;
            push_entry(*variable, of, &mut asked)?;
            Ok(asked)
        }
        _ => Ok(asked),
    }
}

/// The names with the types of payloads.
#[tactic(auto, using(crate::proofs::Entries::payload_first))]
fn push_payloads(
    sorts: &[Sort],
    names: &[u32],
    out: &mut Sequence<(u32, MailboxType)>,
) -> Result<(), AllocError>
    ensures { OnOk result (needs_view out.new ≡ needs_view out.old ++ named_payloads (map sort_view sorts.now) names.now) }
{
    let mut rest = sorts;
    for name in names {
        match rest.split_first() {
            None => return Ok(()),
            Some((sort, more)) => {
                let of = payload_type(sort)?;
                push_entry(*name, of, out)?;
                rest = more;
            }
        }
    }
    Ok(())
}

/// What there is for the body of a receive clause of a guard `x : E`, over what there is for the guard.
pub fn clause_given(
    alloc: Global,
    env: &[(u32, MailboxType)],
    guarded: u32,
    interface: u32,
    pattern: &Pattern,
    declared: &TagDecl,
    clause: &Clause,
) -> Result<Sequence<(u32, MailboxType)>, AllocError>
    ensures { IfOk result (λ given. needs_view given
        ≡ clause_entries (needs_view env.now) guarded interface (pattern_view pattern.now) (tag_view declared.now)
        (clause_view clause.now)) }
{
    let mut given = Sequence::new(alloc);
    let pattern = residual(alloc, pattern, clause.tag)?;
    given.push((
        clause.from,
        MailboxType {
            interface,
            polarity: Polarity::Receiving,
            pattern,
            usage: Usage::Returnable,
        },
    ))?;
    push_payloads(
        declared.payloads.as_slice(),
        clause.vars.as_slice(),
        &mut given,
    )?;
    push_without(guarded, env, &mut given)?;
    Ok(given)
}

/// The parameters that are mailboxes, the first of them being variable 0.
#[tactic(auto, using(crate::proofs::Entries::param_first))]
pub fn params_given(
    alloc: Global,
    types: &[Option<MailboxType>],
) -> Result<Sequence<(u32, MailboxType)>, AllocError>
    ensures { IfOk result (λ given. needs_view given ≡ param_entries 0 (map (option_map type_view) types.now)) }
{
    let mut given = Sequence::new(alloc);
    let mut variable: u32 = 0;
    for of in types {
        let of = copy_option(of)?;
        push_entry(variable, of, &mut given)?;
        variable = match variable.checked_add(1) {
            None => return Err(AllocError),
            Some(next) => next,
        };
    }
    Ok(given)
}
