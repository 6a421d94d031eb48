// What a let divides, where the names of both parts stand in its own environment in the same order, as they do where all ascend.
ghost use Rattle.std.specs.Prelude.{◌≡◌, ◌+◌, ◌≤◌, ◌++◌, true, false, None, length, drop, option_map, option_copied, vec_len, vec_capacity, IfOk, OnOk};
ghost use Rattle.std.specs.List.{list_all};
ghost use Rattle.std.specs.Map.{keys_of};
ghost use Rattle.pat_type_system_spec.specs.Typings.{name_type};
ghost use Rattle.pat_type_schemes_spec.specs.NodeTypes.{need_of};
ghost use Rattle.pat_derivation_spec.specs.Derivations.{ascends_from};
ghost use Rattle.pat_types.specs.Views.{type_view, needs_view};
ghost use Rattle.pat_obligations.specs.Views.{demands_view};
ghost use Rattle.pat_obligations.specs.Listed.{divides_in, let_names};
ghost use Rattle.pat_obligations.specs.Ordered.{next_of, behind, left_of, divides_along, is_name};

use crate::demand::Demand;
use pat_derivations::{ascends, find};
use pat_sequences::Sequence;
use pat_types::MailboxType;
use std::alloc::AllocError;

/// The type of the variable, if it is the next that the part names. The place is then the one behind.
fn next_if<'a>(
    part: &'a [(u32, MailboxType)],
    place: &mut usize,
    variable: u32,
) -> Option<&'a MailboxType>
    ensures next { option_map type_view (option_copied result) ≡ next_of variable (needs_view (drop place.old part.now)) }
    ensures behind { needs_view (drop place.new part.now) ≡ behind variable (needs_view (drop place.old part.now)) }
{
    match part.get(*place) {
        Some((own, of)) => if variable == *own {
            *place += 1;
            Some(of)
        } else {
            None
        },
        None => None,
    }
}

/// Divides each entry of the environment among those of the parts that are next, and answers the places where these are left. There
/// is room for all.
fn put_along<'a>(
    env: &'a [(u32, MailboxType)],
    bound: &'a [(u32, MailboxType)],
    body: &'a [(u32, MailboxType)],
    out: &mut Vec<Demand<'a>>,
) -> (usize, usize)
    requires { vec_len out.old + length env.now ≤ vec_capacity out.old }
    ensures demands { demands_view out.new.items ≡ demands_view out.old.items
        ++ divides_along (needs_view env.now) (needs_view bound.now) (needs_view body.now) }
    ensures bound { needs_view (drop result.0 bound.now) ≡ left_of (needs_view env.now) (needs_view bound.now) }
    ensures body { needs_view (drop result.1 body.now) ≡ left_of (needs_view env.now) (needs_view body.now) }
{
    let mut in_bound = 0;
    let mut in_body = 0;
    for (name, of) in env {
        let first = next_if(bound, &mut in_bound, *name);
        let second = next_if(body, &mut in_body, *name);
        out.push_reserved(Demand::Divide {
            given: Some(of),
            bound: first,
            body: second,
        });
    }
    (in_bound, in_body)
}

/// Whether this is the let's own name.
fn is_own(but: Option<u32>, variable: u32) -> bool
    ensures { result ≡ is_name but variable }
{
    match but {
        Some(name) => name == variable,
        None => false,
    }
}

/// Whether from the place on the part names nothing but the let's own name.
fn names_no_other(but: Option<u32>, part: &[(u32, MailboxType)], place: usize) -> bool
    ensures { result ≡ list_all (is_name but) (keys_of (needs_view (drop place part.now))) }
{
    let mut rest = place;
    while rest < part.len() {
        if !is_own(but, part[rest].0) {
            return false;
        }
        rest += 1;
    }
    true
}

/// Whether the environment ascends, without the let's own name.
fn ascends_without(but: Option<u32>, env: &[(u32, MailboxType)]) -> bool
    ensures ascends { result ≡ true → ascends_from 0 (needs_view env.now) ≡ true }
    ensures without { result ≡ true → name_type but (need_of (needs_view env.now)) ≡ None }
{
    let is_named = match but {
        Some(name) => find(env, name).is_some(),
        None => false,
    };
    !is_named && ascends(env)
}

/// Divides the names of a let in one walk, if those of its parts stand in the environment in the same order. Nothing is added if not.
/// Behind them there is room for the demand of the name.
#[tactic(auto, using(crate::proofs::Ordered::divided, crate::proofs::Ordered::taken_off))]
pub fn divide_along<'a>(
    but: Option<u32>,
    env: &'a [(u32, MailboxType)],
    bound: &'a [(u32, MailboxType)],
    body: &'a [(u32, MailboxType)],
    out: &mut Sequence<Demand<'a>>,
) -> Result<bool, AllocError>
    ensures done { IfOk result (λ b. b ≡ true → demands_view out.new ≡ demands_view out.old
        ++ divides_in (let_names (needs_view env.now) but (needs_view bound.now) (needs_view body.now)) but (needs_view env.now)
        (needs_view bound.now) (needs_view body.now)) }
    ensures kept { IfOk result (λ b. b ≡ false → demands_view out.new ≡ demands_view out.old) }
{
    let before = out.len();
    out.items.reserve(env.len() + 1)?;
    if !ascends_without(but, env) {
        return Ok(false);
    }
    let (in_bound, in_body) = put_along(env, bound, body, &mut out.items);
    if names_no_other(but, bound, in_bound) && names_no_other(but, body, in_body) {
        return Ok(true);
    }
    out.items.truncate(before);
    Ok(false)
}
