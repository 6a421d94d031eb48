// Variables with types.
ghost use Rattle.std.specs.Prelude.{◌≡◌, ◌++◌, option_map, option_copied, IfOk, OnOk};
ghost use Rattle.std.specs.Map.{keys_of};
ghost use Rattle.pat_type_schemes_spec.specs.NodeTypes.{need_of};
ghost use Rattle.pat_derivation_spec.specs.Derivations.{ascends_from};
ghost use Rattle.pat_types.specs.Views.{type_view, needs_view};
ghost use Rattle.pat_derivations.specs.environments.Lists.{without_entry, returnable_entries};

use pat_sequences::Sequence;
use pat_types::{MailboxType, Usage};
use std::alloc::{AllocError, Global};

/// The type of the variable, if it is named.
pub fn find(env: &[(u32, MailboxType)], variable: u32) -> Option<&MailboxType>
    ensures { option_map type_view (option_copied result) ≡ need_of (needs_view env.now) variable }
{
    for (own, of) in env {
        if variable == *own {
            return Some(of);
        }
    }
    None
}

/// A copy of the type of the variable, if it is named.
pub fn copy_of(env: &[(u32, MailboxType)], variable: u32) -> Result<Option<MailboxType>, AllocError>
    ensures { IfOk result (λ o. option_map type_view o ≡ need_of (needs_view env.now) variable) }
{
    match find(env, variable) {
        None => Ok(None),
        Some(of) => Ok(Some(of.copy()?)),
    }
}

/// Whether the variables are in ascending order.
pub fn ascends(env: &[(u32, MailboxType)]) -> bool
    ensures { result ≡ ascends_from 0 (needs_view env.now) }
{
    let mut least: u64 = 0;
    for (variable, _) in env {
        if least > *variable as u64 {
            return false;
        }
        least = *variable as u64 + 1;
    }
    true
}

/// The variables that are named, in order.
pub fn names_of(alloc: Global, env: &[(u32, MailboxType)]) -> Result<Sequence<u32>, AllocError>
    ensures { IfOk result (λ names. names ≡ keys_of (needs_view env.now)) }
{
    let mut names = Sequence::new(alloc);
    names.items.reserve(env.len())?;
    for (own, _) in env {
        names.push(*own)?;
    }
    Ok(names)
}

/// The same without the variable.
pub fn without(
    alloc: Global,
    variable: u32,
    env: &[(u32, MailboxType)],
) -> Result<Sequence<(u32, MailboxType)>, AllocError>
    ensures { IfOk result (λ rest. needs_view rest ≡ without_entry variable (needs_view env.now)) }
{
    let mut rest = Sequence::new(alloc);
    push_without(variable, env, &mut rest)?;
    Ok(rest)
}

/// Puts the entries there, but that of the variable.
pub fn push_without(
    variable: u32,
    env: &[(u32, MailboxType)],
    out: &mut Sequence<(u32, MailboxType)>,
) -> Result<(), AllocError>
    ensures { OnOk result (needs_view out.new ≡ needs_view out.old ++ without_entry variable (needs_view env.now)) }
{
    out.items.reserve(env.len())?;
    for (own, of) in env {
        if variable != *own {
            let copy = of.copy()?;
            out.push((*own, copy))?;
        }
    }
    Ok(())
}

/// The same, each taken as returnable.
pub fn made_returnable(
    alloc: Global,
    env: &[(u32, MailboxType)],
) -> Result<Sequence<(u32, MailboxType)>, AllocError>
    ensures { IfOk result (λ made. needs_view made ≡ returnable_entries (needs_view env.now)) }
{
    let mut made = Sequence::new(alloc);
    made.items.reserve(env.len())?;
    for (own, of) in env {
        let pattern = of.pattern.copy()?;
        let returnable = MailboxType {
            interface: of.interface,
            polarity: of.polarity,
            pattern,
            usage: Usage::Returnable,
        };
        made.push((*own, returnable))?;
    }
    Ok(made)
}
