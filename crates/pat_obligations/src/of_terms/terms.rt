// The demands of terms, one function a form.
ghost use Rattle.std.specs.Prelude.{◌≡◌, ◌++◌, ◌∷◌, Some, map, option_map, option_copied, IfOk, OnOk};
ghost use Rattle.std.specs.List.{range_with_len};
ghost use Rattle.std.specs.Map.{keys_of};
ghost use Rattle.pat_patterns.specs.Views.{pattern_view};
ghost use Rattle.pat_semantics_spec.specs.Programs.{tag_at};
ghost use Rattle.pat_core.specs.Views.{kind_view, expr_view, tag_view, clause_view, program_view};
ghost use Rattle.pat_type_schemes_spec.specs.NodeTypes.{need_of};
ghost use Rattle.pat_types.specs.Views.{type_view, result_view, needs_view};
ghost use Rattle.pat_obligations.specs.Lists.{with_others};
ghost use Rattle.pat_derivations.specs.Views.{line_view, derivation_view};
ghost use Rattle.pat_obligations.specs.Views.{demands_view, signature_view};
ghost use Rattle.pat_obligations.specs.Listed.{listed_name, listed_call, listed_send, listed_target, listed_let, let_names, divides_in, listed_clause, listed_free, free_before, waits_after, free_last, listed_one, listed_clauses, listed_bodies, listed_guard, listed_first};

use crate::along::divide_along;
use crate::asking::{clause_given, params_given, value_asked};
use crate::passing::{
    drop_all, part_there, pass_asked, pass_names, pass_result, pass_to_part, put_divided,
};
use crate::{Demand, Signature, kind_of, line_of, push_arguments, signature_of, tag_of};
use pat_core::{Clause, Expr, Kind, Program, TagDecl};
use pat_derivations::{
    Derivation, DerivedNode, copy_of, find, names_besides, names_of, then_others, with_names_of,
    without,
};
use pat_patterns::Pattern;
use pat_primitives::Polarity;
use pat_sequences::Sequence;
use pat_types::{MailboxType, TypeOf, Usage, payload_types};
use std::alloc::{AllocError, Global};

/// A call of a function, if it is there.
pub fn call(
    alloc: Global,
    env: &[(u32, MailboxType)],
    of: &TypeOf,
    arguments: &[Expr],
    signature: Option<&Signature>,
    out: &mut Sequence<Demand>,
) -> Result<(), AllocError>
    ensures { OnOk result (demands_view out.new
        ≡ demands_view out.old
        ++ listed_call (needs_view env.now) (result_view of.now) (map expr_view arguments.now)
        (option_map signature_view (option_copied signature.entry))) }
{
    match signature {
        None => Ok(()),
        Some(signature) => {
            let mut asked = Sequence::from_vec(Vec::with_capacity(alloc, arguments.len())?);
            push_arguments(signature.params.as_slice(), arguments, &mut asked)?;
            pass_asked(alloc, env, asked.as_slice(), out)?;
            pass_result(&signature.result, of, out)
        }
    }
}

/// A send to a variable of a mailbox of this interface.
fn send(
    alloc: Global,
    env: &[(u32, MailboxType)],
    interface: u32,
    target: u32,
    tag: u8,
    arguments: &[Expr],
    declared: Option<&TagDecl>,
    out: &mut Sequence<Demand>,
) -> Result<(), AllocError>
    ensures { OnOk result (demands_view out.new ≡ demands_view out.old
        ++ listed_send (needs_view env.now) interface target tag (map expr_view arguments.now)
        (option_map tag_view (option_copied declared.entry))) }
{
    match declared {
        None => Ok(()),
        Some(declared) => {
            let types = payload_types(alloc, declared.payloads.as_slice())?;
            let mut asked = Sequence::new(alloc);
            asked.push((
                target,
                MailboxType {
                    interface,
                    polarity: Polarity::Sending,
                    pattern: Pattern::Tag(tag),
                    usage: Usage::Second,
                },
            ))?;
            push_arguments(types.as_slice(), arguments, &mut asked)?;
            pass_asked(alloc, env, asked.as_slice(), out)
        }
    }
}

/// A send to a variable, if it is that of a mailbox.
pub fn send_to(
    alloc: Global,
    program: &Program,
    env: &[(u32, MailboxType)],
    target: u32,
    tag: u8,
    arguments: &[Expr],
    kind: Option<&Kind>,
    out: &mut Sequence<Demand>,
) -> Result<(), AllocError>
    ensures { OnOk result (demands_view out.new
        ≡ demands_view out.old
        ++ listed_target (program_view program.now) (needs_view env.now) target tag (map expr_view arguments.now)
        (option_map kind_view (option_copied kind.entry))) }
{
    match kind {
        Some(Kind::Mailbox(interface)) => {
            let declared = tag_of(program, *interface, tag);
            send(
                alloc, env, *interface, target, tag, arguments, declared, out,
            )
        }
        _ => Ok(()),
    }
}

/// The name of a let, where it is that of a mailbox.
fn name_of_kind<'a>(
    kind: Option<&Kind>,
    bound: &'a TypeOf,
    body: &'a [(u32, MailboxType)],
    name: u32,
    out: &mut Sequence<Demand<'a>>,
) -> Result<(), AllocError>
    ensures { OnOk result (demands_view out.new ≡ demands_view out.old
        ++ listed_name (option_map kind_view (option_copied kind.entry)) (result_view bound.now) (needs_view body.now) name) }
{
    match kind {
        Some(Kind::Mailbox(_)) => {
            let body = find(body, name);
            out.push(Demand::Name { bound, body })
        }
        _ => Ok(()),
    }
}

/// A let, whose parts have these lines.
pub fn let_in<'a>(
    alloc: Global,
    kinds: &[Kind],
    env: &'a [(u32, MailboxType)],
    but: Option<u32>,
    bound: Option<&'a DerivedNode>,
    body: Option<&'a DerivedNode>,
    out: &mut Sequence<Demand<'a>>,
) -> Result<(), AllocError>
    ensures { OnOk result (demands_view out.new
        ≡ demands_view out.old
        ++ listed_let (map kind_view kinds.now) (needs_view env.now) but (option_map line_view (option_copied bound.entry))
        (option_map line_view (option_copied body.entry))) }
{
    match bound {
        None => match body {
            None => Ok(()),
            Some(body) => part_there(alloc, but, env, body.of.env.as_slice(), out),
        },
        Some(bound) => match body {
            None => part_there(alloc, but, env, bound.of.env.as_slice(), out),
            Some(body) => {
                divide(
                    alloc,
                    but,
                    env,
                    bound.of.env.as_slice(),
                    body.of.env.as_slice(),
                    out,
                )?;
                match but {
                    None => Ok(()),
                    Some(name) => name_of_kind(
                        kind_of(kinds, name),
                        &bound.of.result,
                        body.of.env.as_slice(),
                        name,
                        out,
                    ),
                }
            }
        },
    }
}

/// All names are divided among the parts of a let of this name. Mostly one walk does it.
fn divide<'a>(
    alloc: Global,
    but: Option<u32>,
    env: &'a [(u32, MailboxType)],
    bound: &'a [(u32, MailboxType)],
    body: &'a [(u32, MailboxType)],
    out: &mut Sequence<Demand<'a>>,
) -> Result<(), AllocError>
    ensures { OnOk result (demands_view out.new ≡ demands_view out.old
        ++ divides_in (let_names (needs_view env.now) but (needs_view bound.now) (needs_view body.now)) but (needs_view env.now)
        (needs_view bound.now) (needs_view body.now)) }
{
    if divide_along(but, env, bound, body, out)? {
        return Ok(());
    }
    let own = names_of(alloc, env)?;
    let first = with_names_of(alloc, own, but, bound)?;
    let all = with_names_of(alloc, first, but, body)?;
    out.items.reserve(all.len())?;
    put_divided(all.as_slice(), but, env, bound, body, &mut out.items);
    Ok(())
}

/// A receive clause of a guard.
fn clause(
    alloc: Global,
    derivation: &Derivation,
    env: &[(u32, MailboxType)],
    guarded: u32,
    interface: u32,
    pattern: &Pattern,
    receive: &Clause,
    declared: Option<&TagDecl>,
    out: &mut Sequence<Demand>,
) -> Result<(), AllocError>
    ensures { OnOk result (demands_view out.new ≡ demands_view out.old
        ++ listed_clause (derivation_view derivation.now) (needs_view env.now) guarded interface (pattern_view pattern.now)
        (clause_view receive.now) (option_map tag_view (option_copied declared.entry))) }
{
    match declared {
        None => Ok(()),
        Some(declared) => {
            let given = clause_given(alloc, env, guarded, interface, pattern, declared, receive)?;
            let others = names_besides(alloc, guarded, env)?;
            let bound = binders(alloc, receive)?;
            let names = then_others(alloc, others.as_slice(), bound.as_slice())?;
            pass_to_part(
                alloc,
                derivation,
                names.as_slice(),
                given.as_slice(),
                receive.body,
                out,
            )
        }
    }
}

/// The names that a clause binds, what is left of the mailbox first.
fn binders(alloc: Global, receive: &Clause) -> Result<Sequence<u32>, AllocError>
    ensures { IfOk result (λ names. names ≡ (clause_view receive.now).from ∷ (clause_view receive.now).vars) }
{
    let mut names = Sequence::new(alloc);
    names.push(receive.from)?;
    for name in receive.vars.as_slice() {
        names.push(*name)?;
    }
    Ok(names)
}

/// The free clause of a guard.
fn free(
    alloc: Global,
    derivation: &Derivation,
    env: &[(u32, MailboxType)],
    guarded: u32,
    body: u32,
    out: &mut Sequence<Demand>,
) -> Result<(), AllocError>
    ensures { OnOk result (demands_view out.new ≡ demands_view out.old
        ++ listed_free (derivation_view derivation.now) (needs_view env.now) guarded body) }
{
    let given = without(alloc, guarded, env)?;
    let others = names_besides(alloc, guarded, env)?;
    pass_to_part(
        alloc,
        derivation,
        others.as_slice(),
        given.as_slice(),
        body,
        out,
    )
}

/// The clauses of a guard, in the order of their bodies.
fn clauses(
    alloc: Global,
    program: &Program,
    derivation: &Derivation,
    env: &[(u32, MailboxType)],
    guarded: u32,
    interface: u32,
    pattern: &Pattern,
    free_body: Option<u32>,
    receives: &[Clause],
    out: &mut Sequence<Demand>,
) -> Result<(), AllocError>
    ensures { OnOk result (demands_view out.new ≡ demands_view out.old
        ++ listed_clauses (program_view program.now) (derivation_view derivation.now) (needs_view env.now) guarded interface
        (pattern_view pattern.now) free_body (map clause_view receives.now)) }
{
    let mut waiting = free_body;
    for receive in receives {
        waiting = one_clause(
            alloc, program, derivation, env, guarded, interface, pattern, waiting, receive, out,
        )?;
    }
    free_at_last(alloc, derivation, env, guarded, waiting, out)
}

/// A receive clause, and the free clause before it if that waits and comes first. Whether it waits on.
fn one_clause(
    alloc: Global,
    program: &Program,
    derivation: &Derivation,
    env: &[(u32, MailboxType)],
    guarded: u32,
    interface: u32,
    pattern: &Pattern,
    waiting: Option<u32>,
    receive: &Clause,
    out: &mut Sequence<Demand>,
) -> Result<Option<u32>, AllocError>
    ensures next { IfOk result (λ next. next ≡ waits_after waiting (clause_view receive.now).body) }
    ensures demands { OnOk result (demands_view out.new ≡ demands_view out.old
        ++ listed_one (program_view program.now) (derivation_view derivation.now) (needs_view env.now) guarded interface
        (pattern_view pattern.now) waiting (clause_view receive.now)) }
{
    let next = free_first(alloc, derivation, env, guarded, waiting, receive.body, out)?;
    let declared = tag_of(program, interface, receive.tag);
    clause(
        alloc, derivation, env, guarded, interface, pattern, receive, declared, out,
    )?;
    Ok(next)
}

/// The free clause, if it waits and comes before this body. Whether it waits on.
fn free_first(
    alloc: Global,
    derivation: &Derivation,
    env: &[(u32, MailboxType)],
    guarded: u32,
    waiting: Option<u32>,
    body: u32,
    out: &mut Sequence<Demand>,
) -> Result<Option<u32>, AllocError>
    ensures next { IfOk result (λ next. next ≡ waits_after waiting body) }
    ensures demands { OnOk result (demands_view out.new ≡ demands_view out.old
        ++ free_before (derivation_view derivation.now) (needs_view env.now) guarded waiting body) }
{
    match waiting {
        None => Ok(None),
        Some(own) => if own < body {
            free(alloc, derivation, env, guarded, own, out)?;
            Ok(None)
        } else {
            Ok(Some(own))
        },
    }
}

fn free_at_last(
    alloc: Global,
    derivation: &Derivation,
    env: &[(u32, MailboxType)],
    guarded: u32,
    waiting: Option<u32>,
    out: &mut Sequence<Demand>,
) -> Result<(), AllocError>
    ensures { OnOk result (demands_view out.new ≡ demands_view out.old
        ++ free_last (derivation_view derivation.now) (needs_view env.now) guarded waiting) }
{
    match waiting {
        None => Ok(()),
        Some(own) => free(alloc, derivation, env, guarded, own, out),
    }
}

/// The bodies of a guard; without one, what else is there is dropped.
fn bodies(
    alloc: Global,
    program: &Program,
    derivation: &Derivation,
    env: &[(u32, MailboxType)],
    guarded: u32,
    interface: u32,
    pattern: &Pattern,
    free_body: Option<u32>,
    receives: &[Clause],
    out: &mut Sequence<Demand>,
) -> Result<(), AllocError>
    ensures { OnOk result (demands_view out.new ≡ demands_view out.old
        ++ listed_bodies (program_view program.now) (derivation_view derivation.now) (needs_view env.now) guarded interface
        (pattern_view pattern.now) free_body (map clause_view receives.now)) }
{
    if free_body.is_none() && receives.is_empty() {
        let given = without(alloc, guarded, env)?;
        let others = names_besides(alloc, guarded, env)?;
        return pass_names(others.as_slice(), given.as_slice(), &[], out);
    }
    clauses(
        alloc, program, derivation, env, guarded, interface, pattern, free_body, receives, out,
    )
}

/// A guard of a variable, if it is that of a mailbox.
pub fn guard(
    alloc: Global,
    program: &Program,
    derivation: &Derivation,
    env: &[(u32, MailboxType)],
    guarded: u32,
    pattern: &Pattern,
    free_body: Option<u32>,
    receives: &[Clause],
    kind: Option<&Kind>,
    out: &mut Sequence<Demand>,
) -> Result<(), AllocError>
    ensures { OnOk result (demands_view out.new
        ≡ demands_view out.old
        ++ listed_guard (program_view program.now) (derivation_view derivation.now) (needs_view env.now) guarded
        (pattern_view pattern.now) free_body (map clause_view receives.now)
        (option_map kind_view (option_copied kind.entry))) }
{
    match kind {
        Some(Kind::Mailbox(interface)) => {
            let given = copy_of(env, guarded)?;
            let own = pattern.copy()?;
            let asked = Some(MailboxType {
                interface: *interface,
                polarity: Polarity::Receiving,
                pattern: own,
                usage: Usage::Returnable,
            });
            out.push(Demand::Pass { given, asked })?;
            bodies(
                alloc, program, derivation, env, guarded, *interface, pattern, free_body, receives,
                out,
            )
        }
        _ => Ok(()),
    }
}

/// The parameters of a function pass to its first node.
pub fn first(
    alloc: Global,
    count: usize,
    types: &[Option<MailboxType>],
    env: &[(u32, MailboxType)],
    out: &mut Sequence<Demand>,
) -> Result<(), AllocError>
    ensures { OnOk result (demands_view out.new
        ≡ demands_view out.old ++ listed_first count (map (option_map type_view) types.now) (needs_view env.now)) }
{
    let given = params_given(alloc, types)?;
    let parameters = numbers(alloc, count)?;
    let names = with_names_of(alloc, parameters, None, env)?;
    pass_names(names.as_slice(), given.as_slice(), env, out)
}

/// The numbers below the count.
#[tactic(auto, using(crate::proofs::Numbers::numbers_more))]
fn numbers(alloc: Global, count: usize) -> Result<Sequence<u32>, AllocError>
    ensures { IfOk result (λ numbers. numbers ≡ range_with_len 0 count) }
{
    let mut numbers = Sequence::new(alloc);
    for number in 0..count {
        if number > u32::MAX as usize {
            return Err(AllocError);
        }
        numbers.push(number as u32)?;
    }
    Ok(numbers)
}
