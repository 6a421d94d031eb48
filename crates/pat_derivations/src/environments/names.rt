// Lists of names.
ghost use Rattle.std.specs.Prelude.{◌≡◌, ◌++◌, ◌≤◌, length, take, IfOk, OnOk};
ghost use Rattle.pat_semantics_spec.specs.Programs.{is_among};
ghost use Rattle.std.specs.Map.{keys_of};
ghost use Rattle.pat_derivation_spec.specs.Conditions.{but_not as all_but, but_not_name};
ghost use Rattle.pat_types.specs.Views.{needs_view};
ghost use Rattle.pat_derivations.specs.environments.Lists.{others_in, with_others, NeverFalls};

use pat_sequences::Sequence;
use pat_types::MailboxType;
use std::alloc::{AllocError, Global};

/// Whether the name is in the list.
pub fn holds(names: &[u32], name: u32) -> bool
    ensures { result ≡ is_among name names.now }
{
    for own in names {
        if name == *own {
            return true;
        }
    }
    false
}

/// How many names at the front ascend.
#[tactic(auto, using(crate::proofs::Rising::none_rise, crate::proofs::Rising::rises_on, crate::proofs::Rising::never_falls))]
fn rising_front(names: &[u32]) -> usize
    ensures within { result ≤ length names.now }
    ensures rising { NeverFalls (take result names.now) }
{
    let mut least = 0;
    for (place, name) in names.iter().enumerate() {
        if *name < least {
            return place;
        }
        least = *name;
    }
    names.len()
}

/// Whether the name is in the list, which ascends. The place is then the one behind.
fn holds_rising(names: &[u32], near: &mut usize, name: u32) -> bool
    requires { NeverFalls names.now }
    ensures { result ≡ is_among name names.now }
{
    match names.binary_search(&name) {
        Ok(place) => {
            *near = place + 1;
            true
        }
        Err(place) => {
            *near = place;
            false
        }
    }
}

/// Whether the name is in the list, of which so many at the front ascend.
fn holds_beyond(names: &[u32], rising: usize, near: &mut usize, name: u32) -> bool
    requires within { rising ≤ length names.now }
    requires rising { NeverFalls (take rising names.now) }
    ensures { result ≡ is_among name names.now }
{
    holds_rising(&names[..rising], near, name) || holds(&names[rising..], name)
}

/// Whether the name is in the list. It is first looked for at the place `near`, which then is the one behind: names mostly come in
/// their order.
fn holds_near(names: &[u32], rising: usize, near: &mut usize, name: u32) -> bool
    requires within { rising ≤ length names.now }
    requires rising { NeverFalls (take rising names.now) }
    ensures { result ≡ is_among name names.now }
{
    let place = *near;
    if place < names.len() && names[place] == name {
        *near = place + 1;
        return true;
    }
    holds_beyond(names, rising, near, name)
}

/// Those of the second list that are not in the first.
pub fn others(alloc: Global, names: &[u32], more: &[u32]) -> Result<Sequence<u32>, AllocError>
    ensures { IfOk result (λ rest. rest ≡ others_in names.now more.now) }
{
    let rising = rising_front(names);
    let mut near = 0;
    let mut rest = Sequence::new(alloc);
    for name in more {
        if !holds_near(names, rising, &mut near, *name) {
            rest.push(*name)?;
        }
    }
    Ok(rest)
}

/// The names of the environment that are not in the list.
pub fn others_of(
    alloc: Global,
    names: &[u32],
    env: &[(u32, MailboxType)],
) -> Result<Sequence<u32>, AllocError>
    ensures { IfOk result (λ rest. rest ≡ others_in names.now (keys_of (needs_view env.now))) }
{
    let rising = rising_front(names);
    let mut near = 0;
    let mut rest = Sequence::new(alloc);
    for (name, _) in env {
        if !holds_near(names, rising, &mut near, *name) {
            rest.push(*name)?;
        }
    }
    Ok(rest)
}

/// The names of the environment but this one that are not in the list.
fn others_besides(
    alloc: Global,
    but: u32,
    names: &[u32],
    env: &[(u32, MailboxType)],
) -> Result<Sequence<u32>, AllocError>
    ensures { IfOk result (λ rest. rest ≡ others_in names.now (all_but but (keys_of (needs_view env.now)))) }
{
    let rising = rising_front(names);
    let mut near = 0;
    let mut rest = Sequence::new(alloc);
    for (name, _) in env {
        if but != *name {
            if !holds_near(names, rising, &mut near, *name) {
                rest.push(*name)?;
            }
        }
    }
    Ok(rest)
}

/// The names of the environment that are not in the list, but this one if there is one.
fn others_but(
    alloc: Global,
    but: Option<u32>,
    names: &[u32],
    env: &[(u32, MailboxType)],
) -> Result<Sequence<u32>, AllocError>
    ensures { IfOk result (λ rest. rest ≡ others_in names.now (but_not_name but (keys_of (needs_view env.now)))) }
{
    match but {
        None => others_of(alloc, names, env),
        Some(name) => others_besides(alloc, name, names, env),
    }
}

/// The names, and then those of the environment that are not among them, but this one if there is one. Mostly there are none.
pub fn with_names_of(
    alloc: Global,
    names: Sequence<u32>,
    but: Option<u32>,
    env: &[(u32, MailboxType)],
) -> Result<Sequence<u32>, AllocError>
    ensures { IfOk result (λ all. all ≡ with_others names (but_not_name but (keys_of (needs_view env.now)))) }
{
    let rest = others_but(alloc, but, names.as_slice(), env)?;
    let mut all = names;
    append(&mut all, rest.as_slice())?;
    Ok(all)
}

/// The names of the first list, and then those of the second that are not in it.
pub fn then_others(alloc: Global, names: &[u32], more: &[u32]) -> Result<Sequence<u32>, AllocError>
    ensures { IfOk result (λ all. all ≡ with_others names.now more.now) }
{
    let rest = others(alloc, names, more)?;
    let mut all = Sequence::new(alloc);
    all.items.reserve(names.len().saturating_add(rest.len()))?;
    append(&mut all, names)?;
    append(&mut all, rest.as_slice())?;
    Ok(all)
}

fn append(all: &mut Sequence<u32>, more: &[u32]) -> Result<(), AllocError>
    ensures { OnOk result (all.new ≡ all.old ++ more.now) }
{
    all.items.extend_from_slice(more)?;
    Ok(())
}

/// The names of the environment but this one.
pub fn names_besides(
    alloc: Global,
    name: u32,
    env: &[(u32, MailboxType)],
) -> Result<Sequence<u32>, AllocError>
    ensures { IfOk result (λ rest. rest ≡ all_but name (keys_of (needs_view env.now))) }
{
    let mut rest = Sequence::new(alloc);
    rest.items.reserve(env.len())?;
    for (own, _) in env {
        if name != *own {
            rest.push(*own)?;
        }
    }
    Ok(rest)
}
