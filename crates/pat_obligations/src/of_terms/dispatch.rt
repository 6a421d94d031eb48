// The demands of a node.
ghost use Rattle.std.specs.Prelude.{◌≡◌, ◌++◌, map, OnOk};
ghost use Rattle.std.specs.Map.{keys_of};
ghost use Rattle.pat_words_spec.specs.Patterns.{One};
ghost use Rattle.pat_semantics_spec.specs.Programs.{Receiving};
ghost use Rattle.pat_type_system_spec.specs.Types.{MailboxTerm};
ghost use Rattle.pat_core.specs.Views.{kind_view, core_view, program_view};
ghost use Rattle.pat_types.specs.Views.{result_view, needs_view, node_type_view};
ghost use Rattle.pat_derivation_spec.specs.Conditions.{result_passes};
ghost use Rattle.pat_derivation_spec.specs.Derivations.{line_at};
ghost use Rattle.pat_obligations.specs.Lists.{returnable_entries};
ghost use Rattle.pat_derivations.specs.Views.{derivation_view};
ghost use Rattle.pat_obligations.specs.Views.{demands_view, signature_view};
ghost use Rattle.pat_obligations.specs.Listed.{drops, passes_to, listed_term};

use crate::asking::value_asked;
use crate::of_terms::terms::{call, guard, let_in, send_to};
use crate::passing::{drop_all, pass_asked, pass_result, pass_to_part};
use crate::{Demand, Signature, kind_of, line_of, signature_of};
use pat_core::{Core, Kind, Program};
use pat_derivations::{Derivation, made_returnable, names_of};
use pat_patterns::Pattern;
use pat_primitives::Polarity;
use pat_sequences::Sequence;
use pat_types::{MailboxType, NodeType, TypeOf};
use std::alloc::{AllocError, Global};

/// Everything passes to the one branch, and then to the other.
fn branches(
    alloc: Global,
    derivation: &Derivation,
    env: &[(u32, MailboxType)],
    yes: u32,
    no: u32,
    out: &mut Sequence<Demand>,
) -> Result<(), AllocError>
    ensures { OnOk result (demands_view out.new ≡ demands_view out.old
        ++ (passes_to (keys_of (needs_view env.now)) (needs_view env.now) (line_at (derivation_view derivation.now) yes)
        ++ passes_to (keys_of (needs_view env.now)) (needs_view env.now) (line_at (derivation_view derivation.now) no))) }
{
    let names = names_of(alloc, env)?;
    pass_to_part(alloc, derivation, names.as_slice(), env, yes, out)?;
    pass_to_part(alloc, derivation, names.as_slice(), env, no, out)
}

/// Everything, taken as returnable, passes to the body.
fn spawned(
    alloc: Global,
    derivation: &Derivation,
    env: &[(u32, MailboxType)],
    body: u32,
    out: &mut Sequence<Demand>,
) -> Result<(), AllocError>
    ensures { OnOk result (demands_view out.new ≡ demands_view out.old
        ++ passes_to (keys_of (needs_view env.now)) (returnable_entries (needs_view env.now))
        (line_at (derivation_view derivation.now) body)) }
{
    let names = names_of(alloc, env)?;
    let given = made_returnable(alloc, env)?;
    pass_to_part(
        alloc,
        derivation,
        names.as_slice(),
        given.as_slice(),
        body,
        out,
    )
}

/// A mailbox that expects nothing passes to the node's type, and all is dropped.
fn made(
    alloc: Global,
    env: &[(u32, MailboxType)],
    interface: u32,
    of: &TypeOf,
    out: &mut Sequence<Demand>,
) -> Result<(), AllocError>
    ensures { OnOk result (demands_view out.new ≡ demands_view out.old
        ++ (result_passes (MailboxTerm interface Receiving One) (result_view of.now) ++ drops (needs_view env.now))) }
{
    let new = TypeOf::Mailbox {
        interface,
        polarity: Polarity::Receiving,
        pattern: Pattern::One,
    };
    pass_result(&new, of, out)?;
    drop_all(alloc, env, out)
}

/// What a term demands, where variables have these kinds and the node has this type.
pub fn term<'a>(
    alloc: Global,
    program: &Program,
    derivation: &'a Derivation,
    signatures: &[Signature],
    kinds: &[Kind],
    of: &'a NodeType,
    core: &Core,
    out: &mut Sequence<Demand<'a>>,
) -> Result<(), AllocError>
    ensures { OnOk result (demands_view out.new
        ≡ demands_view out.old
        ++ listed_term (program_view program.now) (derivation_view derivation.now) (map signature_view signatures.now)
        (map kind_view kinds.now) (node_type_view of.now) (core_view core.now)) }
{
    let env = of.env.as_slice();
    match core {
        Core::Value(value) => {
            let asked = value_asked(alloc, &of.result, value)?;
            pass_asked(alloc, env, asked.as_slice(), out)
        }
        Core::Print(_) => drop_all(alloc, env, out),
        Core::Let { var, bound, body } => {
            let first = line_of(derivation, *bound);
            let second = line_of(derivation, *body);
            let_in(alloc, kinds, env, *var, first, second, out)
        }
        Core::Call { function, args } => {
            let signature = signature_of(signatures, *function);
            call(alloc, env, &of.result, args.as_slice(), signature, out)
        }
        Core::If { test: _, yes, no } => branches(alloc, derivation, env, *yes, *no, out),
        Core::New(interface) => made(alloc, env, *interface, &of.result, out),
        Core::Send { target, tag, args } => {
            let kind = kind_of(kinds, *target);
            send_to(
                alloc,
                program,
                env,
                *target,
                *tag,
                args.as_slice(),
                kind,
                out,
            )
        }
        Core::Spawn(body) => spawned(alloc, derivation, env, *body, out),
        Core::Guard {
            var,
            pattern,
            free,
            receives,
        } => {
            let kind = kind_of(kinds, *var);
            guard(
                alloc,
                program,
                derivation,
                env,
                *var,
                pattern,
                *free,
                receives.as_slice(),
                kind,
                out,
            )
        }
    }
}
