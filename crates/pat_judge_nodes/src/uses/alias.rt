// No mailbox is named twice in one term.
ghost use Rattle.std.specs.Prelude.{◌≡◌, Some, map, option_map, option_copied, slice_get, IfOk};
ghost use Rattle.std.specs.Map.{keys_of};
ghost use Rattle.pat_semantics_spec.specs.Programs.{function_at};
ghost use Rattle.pat_type_system_spec.specs.Typings.{payload_sort};
ghost use Rattle.pat_core.specs.Views.{expr_view, kind_view, core_view, function_view, tag_view, node_view, program_view};
ghost use Rattle.pat_types.specs.Views.{needs_view};
ghost use Rattle.pat_derivation_spec.specs.Same.{all_differ as all_differ_of};
ghost use Rattle.pat_derivation_spec.specs.Rules.{tag_of_kind as tag_of_kind_of, has_no_alias as has_no_alias_at};
ghost use Rattle.pat_derivation_spec.specs.Truth.{place};
ghost use Rattle.pat_derivations.specs.Views.{line_view, derivation_view};
ghost use Rattle.pat_obligations.specs.Listed.{asked_args};
ghost use Rattle.pat_obligations.specs.Views.{signature_view};
ghost use Rattle.pat_obligations.specs.of_terms.Opened.{opened_from};
ghost use Rattle.pat_judge_nodes.specs.uses.Arguments.{call_differs, send_differs};

use pat_core::{Core, Expr, Function, Kind, Node, Program, TagDecl};
use pat_derivations::{Derivation, DerivedNode, holds, names_of};
use pat_obligations::{Signature, kind_of, push_arguments, signature_of, tag_of};
use pat_sequences::Sequence;
use pat_types::{MailboxType, payload_types};
use std::alloc::{AllocError, Global};

/// Whether the mailbox variables of a call are different, and so those of a send with its target. The signatures are those of
/// the program's functions.
pub fn has_no_alias(
    alloc: Global,
    program: &Program,
    derivation: &Derivation,
    signatures: &[Signature],
    number: usize,
    node: &Node,
    function: &Function,
    line: &DerivedNode,
) -> Result<bool, AllocError>
    requires { map signature_view signatures.now ≡ opened_from 1 (program_view program.now).functions }
    ensures { IfOk result (λ b. b
        ≡ has_no_alias_at (program_view program.now) (derivation_view derivation.now)
        (place number (node_view node.now) (function_view function.now) (line_view line.now))) }
{
    match &node.core {
        Core::Call { function, args } => {
            let signature = signature_of(signatures, *function);
            arguments_differ(alloc, signature, args.as_slice())
        }
        Core::Send { target, tag, args } => {
            let declared = tag_of_kind(program, *tag, kind_of(function.vars.as_slice(), *target));
            payloads_differ(alloc, *target, declared, args.as_slice())
        }
        _ => Ok(true),
    }
}

/// The tag of a mailbox of this kind, if it is there.
pub fn tag_of_kind<'a>(program: &'a Program, tag: u8, kind: Option<&Kind>) -> Option<&'a TagDecl>
    ensures { option_map tag_view (option_copied result)
        ≡ tag_of_kind_of (program_view program.now) tag (option_map kind_view (option_copied kind.entry)) }
{
    match kind {
        Some(Kind::Mailbox(interface)) => tag_of(program, *interface, tag),
        _ => None,
    }
}

fn arguments_differ(
    alloc: Global,
    signature: Option<&Signature>,
    arguments: &[Expr],
) -> Result<bool, AllocError>
    ensures { IfOk result (λ b. b ≡ call_differs (option_map signature_view (option_copied signature.entry))
        (map expr_view arguments.now)) }
{
    match signature {
        None => Ok(true),
        Some(signature) => {
            let mut asked = Sequence::new(alloc);
            push_arguments(signature.params.as_slice(), arguments, &mut asked)?;
            names_differ(alloc, asked.as_slice())
        }
    }
}

fn payloads_differ(
    alloc: Global,
    target: u32,
    declared: Option<&TagDecl>,
    arguments: &[Expr],
) -> Result<bool, AllocError>
    ensures { IfOk result (λ b. b ≡ send_differs target (option_map tag_view (option_copied declared.entry))
        (map expr_view arguments.now)) }
{
    match declared {
        None => Ok(true),
        Some(declared) => {
            let types = payload_types(alloc, declared.payloads.as_slice())?;
            let mut asked = Sequence::new(alloc);
            push_arguments(types.as_slice(), arguments, &mut asked)?;
            let names = names_of(alloc, asked.as_slice())?;
            Ok(!holds(names.as_slice(), target) && all_differ(names.as_slice()))
        }
    }
}

fn names_differ(alloc: Global, asked: &[(u32, MailboxType)]) -> Result<bool, AllocError>
    ensures { IfOk result (λ b. b ≡ all_differ_of (keys_of (needs_view asked.now))) }
{
    let names = names_of(alloc, asked)?;
    Ok(all_differ(names.as_slice()))
}

/// Whether no number stands twice in the list.
fn all_differ(names: &[u32]) -> bool
    ensures { result ≡ all_differ_of names.now }
{
    let mut rest = names;
    while let Some((name, more)) = rest.split_first() {
        if holds(more, *name) {
            return false;
        }
        rest = more;
    }
    true
}
