// Beside a mailbox that was received a body uses the names of its clause alone.
ghost use Rattle.std.specs.Prelude.{◌≡◌, map, option_map, option_copied, is_some};
ghost use Rattle.std.specs.List.{list_all, list_any};
ghost use Rattle.std.specs.Map.{keys_of};
ghost use Rattle.pat_semantics_spec.specs.Programs.{is_among, clause_binders};
ghost use Rattle.pat_type_system_spec.specs.Typings.{payload_sort};
ghost use Rattle.pat_core.specs.Views.{sort_view, kind_view, tag_view, clause_view, node_view, function_view, program_view};
ghost use Rattle.pat_types.specs.Views.{needs_view};
ghost use Rattle.pat_derivation_spec.specs.Rules.{has_mailbox_payload as has_mailbox_payload_of, names_only as names_only_of, clause_keeps_apart, payloads_stand_apart as payloads_stand_apart_at};
ghost use Rattle.pat_derivation_spec.specs.Truth.{place};
ghost use Rattle.pat_derivations.specs.Views.{line_view, derivation_view};

use crate::uses::alias::tag_of_kind;
use pat_core::{Clause, Core, Function, Kind, Node, Program, Sort, TagDecl};
use pat_derivations::{Derivation, DerivedNode, holds};
use pat_obligations::{kind_of, line_of};
use pat_types::{MailboxType, is_mailbox};

/// Whether each clause of a guard that receives a mailbox as a payload has a body that names the clause's own names alone.
pub fn payloads_stand_apart(
    program: &Program,
    derivation: &Derivation,
    number: usize,
    node: &Node,
    function: &Function,
    line: &DerivedNode,
) -> bool
    ensures { result
        ≡ payloads_stand_apart_at (program_view program.now) (derivation_view derivation.now)
        (place number (node_view node.now) (function_view function.now) (line_view line.now)) }
{
    match &node.core {
        Core::Guard {
            var,
            pattern: _,
            free: _,
            receives,
        } => clauses_keep_apart(
            program,
            derivation,
            kind_of(function.vars.as_slice(), *var),
            receives.as_slice(),
        ),
        _ => true,
    }
}

fn clauses_keep_apart(
    program: &Program,
    derivation: &Derivation,
    kind: Option<&Kind>,
    clauses: &[Clause],
) -> bool
    ensures { result ≡ list_all (clause_keeps_apart (program_view program.now) (derivation_view derivation.now)
        (option_map kind_view (option_copied kind.entry))) (map clause_view clauses.now) }
{
    for clause in clauses {
        if !keeps_apart(program, derivation, kind, clause) {
            return false;
        }
    }
    true
}

fn keeps_apart(
    program: &Program,
    derivation: &Derivation,
    kind: Option<&Kind>,
    clause: &Clause,
) -> bool
    ensures { result ≡ clause_keeps_apart (program_view program.now) (derivation_view derivation.now)
        (option_map kind_view (option_copied kind.entry)) (clause_view clause.now) }
{
    !has_mailbox_payload(tag_of_kind(program, clause.tag, kind))
        || names_only(clause, line_of(derivation, clause.body))
}

fn has_mailbox_payload(declared: Option<&TagDecl>) -> bool
    ensures { result ≡ has_mailbox_payload_of (option_map tag_view (option_copied declared.entry)) }
{
    match declared {
        None => false,
        Some(declared) => some_is_mailbox(declared.payloads.as_slice()),
    }
}

fn some_is_mailbox(sorts: &[Sort]) -> bool
    ensures { result ≡ list_any (λ a. is_some (payload_sort a)) (map sort_view sorts.now) }
{
    for sort in sorts {
        if is_mailbox(sort) {
            return true;
        }
    }
    false
}

fn names_only(clause: &Clause, line: Option<&DerivedNode>) -> bool
    ensures { result ≡ names_only_of (clause_binders (clause_view clause.now)) (option_map line_view (option_copied line.entry)) }
{
    match line {
        None => true,
        Some(line) => all_bound(clause, line.of.env.as_slice()),
    }
}

/// Whether the clause binds each name of the environment.
fn all_bound(clause: &Clause, env: &[(u32, MailboxType)]) -> bool
    ensures { result ≡ list_all (λ x. is_among x (clause_binders (clause_view clause.now))) (keys_of (needs_view env.now)) }
{
    for (name, _) in env {
        if !binds(clause, *name) {
            return false;
        }
    }
    true
}

#[tactic(auto, using(crate::proofs::Differing::among_last))]
fn binds(clause: &Clause, variable: u32) -> bool
    ensures { result ≡ is_among variable (clause_binders (clause_view clause.now)) }
{
    holds(clause.vars.as_slice(), variable) || variable == clause.from
}
