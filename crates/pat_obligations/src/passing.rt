// Demands along lists of names.
ghost use Rattle.std.specs.Prelude.{◌≡◌, ◌+◌, ◌≤◌, ◌++◌, length, option_map, option_copied, vec_len, vec_capacity, IfOk, OnOk};
ghost use Rattle.std.specs.Map.{keys_of};
ghost use Rattle.pat_type_system_spec.specs.Typings.{without_name};
ghost use Rattle.pat_type_schemes_spec.specs.NodeTypes.{need_of};
ghost use Rattle.pat_types.specs.Views.{type_view, result_view, needs_view};
ghost use Rattle.pat_derivation_spec.specs.Conditions.{but_not_name, result_passes};
ghost use Rattle.pat_derivation_spec.specs.Derivations.{line_at};
ghost use Rattle.pat_derivations.specs.environments.Lists.{with_others};
ghost use Rattle.pat_derivations.specs.Views.{derivation_view};
ghost use Rattle.pat_obligations.specs.Views.{demands_view};
ghost use Rattle.pat_obligations.specs.Listed.{passes_in, divides_in, theres_in, passes_to, listed_part, asks, drops, returnable_of};

use crate::demand::Demand;
use crate::looking::line_of;
use pat_derivations::{Derivation, LookUps, names_besides, names_of, others_of};
use pat_sequences::Sequence;
use pat_types::{MailboxType, TypeOf, Usage};
use std::alloc::{AllocError, Global};

/// Each of the names passes from the one environment to the other. There is room for all.
fn put_passed(
    names: &[u32],
    given: &[(u32, MailboxType)],
    asked: &[(u32, MailboxType)],
    out: &mut Vec<Demand>,
) -> Result<(), AllocError>
    requires { vec_len out.old + length names.now ≤ vec_capacity out.old }
    ensures { OnOk result (demands_view out.new.items ≡ demands_view out.old.items
        ++ passes_in names.now (needs_view given.now) (needs_view asked.now)) }
{
    let from = LookUps::new(given);
    let to = LookUps::new(asked);
    let mut near = (0, 0);
    for name in names {
        let given = from.copy_of(&mut near.0, *name)?;
        let asked = to.copy_of(&mut near.1, *name)?;
        out.push_reserved(Demand::Pass { given, asked });
    }
    Ok(())
}

/// Each of the names passes from the one environment to the other.
pub fn pass_names(
    names: &[u32],
    given: &[(u32, MailboxType)],
    asked: &[(u32, MailboxType)],
    out: &mut Sequence<Demand>,
) -> Result<(), AllocError>
    ensures { OnOk result (demands_view out.new ≡ demands_view out.old
        ++ passes_in names.now (needs_view given.now) (needs_view asked.now)) }
{
    if names.is_empty() {
        return Ok(());
    }
    out.items.reserve(names.len())?;
    put_passed(names, given, asked, &mut out.items)
}

/// The type of the variable in a part of a let, unless it is the let's own name.
fn find_but<'a>(
    but: Option<u32>,
    part: &LookUps<'a>,
    near: &mut usize,
    variable: u32,
) -> Option<&'a MailboxType>
    ensures { option_map type_view (option_copied result) ≡ without_name but (need_of (needs_view part.now.env.now)) variable }
{
    match but {
        None => part.find(near, variable),
        Some(name) => if name == variable {
            None
        } else {
            part.find(near, variable)
        },
    }
}

/// Each of the names is divided among the parts of a let of this name. There is room for all.
pub fn put_divided<'a>(
    names: &[u32],
    but: Option<u32>,
    given: &'a [(u32, MailboxType)],
    bound: &'a [(u32, MailboxType)],
    body: &'a [(u32, MailboxType)],
    out: &mut Vec<Demand<'a>>,
)
    requires { vec_len out.old + length names.now ≤ vec_capacity out.old }
    ensures { demands_view out.new.items ≡ demands_view out.old.items
        ++ divides_in names.now but (needs_view given.now) (needs_view bound.now) (needs_view body.now) }
{
    let whole = LookUps::new(given);
    let first = LookUps::new(bound);
    let second = LookUps::new(body);
    let mut near = 0;
    let mut near_parts = (0, 0);
    for name in names {
        let given = whole.find(&mut near, *name);
        let bound = find_but(but, &first, &mut near_parts.0, *name);
        let body = find_but(but, &second, &mut near_parts.1, *name);
        out.push_reserved(Demand::Divide { given, bound, body });
    }
}

/// The names that a part has, but that of its let.
pub fn names_but(
    alloc: Global,
    but: Option<u32>,
    env: &[(u32, MailboxType)],
) -> Result<Sequence<u32>, AllocError>
    ensures { IfOk result (λ names. names ≡ but_not_name but (keys_of (needs_view env.now))) }
{
    match but {
        None => names_of(alloc, env),
        Some(name) => names_besides(alloc, name, env),
    }
}

/// Each of the names is there, if it is asked. There is room for all.
fn put_there<'a>(
    names: &[u32],
    given: &'a [(u32, MailboxType)],
    part: &'a [(u32, MailboxType)],
    out: &mut Vec<Demand<'a>>,
)
    requires { vec_len out.old + length names.now ≤ vec_capacity out.old }
    ensures { demands_view out.new.items ≡ demands_view out.old.items ++ theres_in names.now (needs_view given.now) (needs_view part.now) }
{
    let whole = LookUps::new(given);
    let own = LookUps::new(part);
    let mut near = (0, 0);
    for name in names {
        let given = whole.find(&mut near.0, *name);
        let asked = own.find(&mut near.1, *name);
        out.push_reserved(Demand::There { given, asked });
    }
}

/// The names of one part of a let are there, but that of the let.
pub fn part_there<'a>(
    alloc: Global,
    but: Option<u32>,
    given: &'a [(u32, MailboxType)],
    part: &'a [(u32, MailboxType)],
    out: &mut Sequence<Demand<'a>>,
) -> Result<(), AllocError>
    ensures { OnOk result (demands_view out.new ≡ demands_view out.old ++ listed_part (needs_view given.now) but (needs_view part.now)) }
{
    let names = names_but(alloc, but, part)?;
    out.items.reserve(names.len())?;
    put_there(names.as_slice(), given, part, &mut out.items);
    Ok(())
}

fn pass_to_env(
    alloc: Global,
    names: &[u32],
    given: &[(u32, MailboxType)],
    env: &[(u32, MailboxType)],
    out: &mut Sequence<Demand>,
) -> Result<(), AllocError>
    ensures { OnOk result (demands_view out.new ≡ demands_view out.old
        ++ passes_in (with_others names.now (keys_of (needs_view env.now))) (needs_view given.now) (needs_view env.now)) }
{
    pass_names(names, given, env, out)?;
    let others = others_of(alloc, names, env)?;
    pass_names(others.as_slice(), given, env, out)
}

/// What is there passes to a part, those names first, and the part names no other.
pub fn pass_to_part(
    alloc: Global,
    derivation: &Derivation,
    names: &[u32],
    given: &[(u32, MailboxType)],
    part: u32,
    out: &mut Sequence<Demand>,
) -> Result<(), AllocError>
    ensures { OnOk result (demands_view out.new
        ≡ demands_view out.old ++ passes_to names.now (needs_view given.now) (line_at (derivation_view derivation.now) part)) }
{
    match line_of(derivation, part) {
        None => Ok(()),
        Some(line) => pass_to_env(alloc, names, given, line.of.env.as_slice(), out),
    }
}

/// What is asked is there, and what else is there is dropped.
pub fn pass_asked(
    alloc: Global,
    env: &[(u32, MailboxType)],
    asked: &[(u32, MailboxType)],
    out: &mut Sequence<Demand>,
) -> Result<(), AllocError>
    ensures { OnOk result (demands_view out.new ≡ demands_view out.old ++ asks (needs_view env.now) (needs_view asked.now)) }
{
    let first = names_of(alloc, asked)?;
    pass_names(first.as_slice(), env, asked, out)?;
    let others = others_of(alloc, first.as_slice(), env)?;
    pass_names(others.as_slice(), env, asked, out)
}

/// All that is there is dropped.
pub fn drop_all(
    alloc: Global,
    env: &[(u32, MailboxType)],
    out: &mut Sequence<Demand>,
) -> Result<(), AllocError>
    ensures { OnOk result (demands_view out.new ≡ demands_view out.old ++ drops (needs_view env.now)) }
{
    let own = names_of(alloc, env)?;
    pass_names(own.as_slice(), env, &[], out)
}

/// The type of a term, taken as that of a variable that is returnable; a base type is none.
pub fn as_returnable(of: &TypeOf) -> Result<Option<MailboxType>, AllocError>
    ensures { IfOk result (λ o. option_map type_view o ≡ returnable_of (result_view of.now)) }
{
    match of {
        TypeOf::Base(_) => Ok(None),
        TypeOf::Mailbox {
            interface,
            polarity,
            pattern,
        } => {
            let pattern = pattern.copy()?;
            Ok(Some(MailboxType {
                interface: *interface,
                polarity: *polarity,
                pattern,
                usage: Usage::Returnable,
            }))
        }
    }
}

/// The one term's type fits the other's.
pub fn pass_result(
    given: &TypeOf,
    asked: &TypeOf,
    out: &mut Sequence<Demand>,
) -> Result<(), AllocError>
    ensures { OnOk result (demands_view out.new ≡ demands_view out.old ++ result_passes (result_view given.now) (result_view asked.now)) }
{
    let given = as_returnable(given)?;
    let asked = as_returnable(asked)?;
    if given.is_none() || asked.is_none() {
        return Ok(());
    }
    out.push(Demand::Pass { given, asked })
}
