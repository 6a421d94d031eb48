// Whether a line is one for its node.
ghost use Rattle.std.specs.Prelude.{◌≡◌, ◌&&◌, map, slice_get, Some, IsTrue};
ghost use Rattle.std.specs.List.{list_all};
ghost use Rattle.pat_semantics_spec.specs.Programs.{node_at, function_at};
ghost use Rattle.pat_type_system_spec.specs.Types.{kind_of_type};
ghost use Rattle.pat_inclusion_spec.specs.Values.{is_formed as is_formed_of};
ghost use Rattle.pat_judge.specs.shape.Words.{agrees_with};
ghost use Rattle.pat_derivation_spec.specs.Same.{is_same_kind, is_mailbox_of};
ghost use Rattle.pat_derivation_spec.specs.Derivations.{line_at, scope_of};
ghost use Rattle.pat_derivation_spec.specs.Scopes.{is_in_scope};
ghost use Rattle.pat_derivation_spec.specs.Truth.{place};
ghost use Rattle.pat_derivation_spec.specs.Rules.{type_is_formed as type_is_formed_of, gives as gives_of, gives_too as gives_too_of, tails_agree as tails_agree_of, first_agrees as first_agrees_of, is_named_well, has_values, has_shape as has_shape_of};
ghost use Rattle.pat_core.specs.Views.{kind_view, core_view, clause_view, node_view, function_view, program_view};
ghost use Rattle.pat_types.specs.Views.{result_view, needs_view};
ghost use Rattle.pat_derivations.specs.Views.{line_view, derivation_view};
ghost use Rattle.pat_obligations.specs.Views.{signature_view};
ghost use Rattle.pat_obligations.specs.of_terms.Opened.{opened_from};

use crate::shape::starting::both;
use pat_certificate_values::{is_formed, same_base, same_kind, same_type};
use pat_core::{Clause, Core, Function, Kind, Node, Program};
use pat_derivations::{Derivation, DerivedNode, ascends};
use pat_obligations::{Signature, kind_of, line_of, signature_of};
use pat_primitives::Base;
use pat_types::TypeOf;

/// Whether the type of a term has the kind.
fn has_kind(of: &TypeOf, kind: Kind) -> bool
    ensures { result ≡ is_same_kind (kind_of_type (result_view of.now)) (kind_view kind) }
{
    match of {
        TypeOf::Base(base) => match kind {
            Kind::Unit => same_base(*base, Base::Unit),
            Kind::Bool => same_base(*base, Base::Bool),
            Kind::Int => same_base(*base, Base::Int),
            Kind::Str => same_base(*base, Base::Str),
            Kind::Mailbox(_) => false,
        },
        TypeOf::Mailbox {
            interface,
            polarity: _,
            pattern: _,
        } => same_kind(Kind::Mailbox(*interface), kind),
    }
}

/// Whether the variable is there, and names a mailbox of the interface.
pub fn names_mailbox(kinds: &[Kind], variable: u32, interface: u32) -> bool
    ensures { result ≡ is_mailbox_of interface (slice_get (map kind_view kinds.now) variable) }
{
    match kind_of(kinds, variable) {
        None => false,
        Some(kind) => same_kind(*kind, Kind::Mailbox(interface)),
    }
}

fn type_is_formed(program: &Program, derivation: &Derivation, of: &TypeOf) -> bool
    ensures { result ≡ type_is_formed_of (scope_of (program_view program.now) (derivation_view derivation.now)) (result_view of.now) }
{
    match of {
        TypeOf::Base(_) => true,
        TypeOf::Mailbox {
            interface,
            polarity: _,
            pattern,
        } => is_formed(program, derivation, *interface, pattern),
    }
}

/// Whether the part has this type, or no line.
fn gives(derivation: &Derivation, of: &TypeOf, part: u32) -> bool
    ensures { result ≡ gives_of (result_view of.now) (line_at (derivation_view derivation.now) part) }
{
    match line_of(derivation, part) {
        None => true,
        Some(line) => same_type(&line.of.result, of),
    }
}

fn gives_too(derivation: &Derivation, of: &TypeOf, part: Option<u32>) -> bool
    ensures { result ≡ gives_too_of (derivation_view derivation.now) (result_view of.now) part }
{
    match part {
        None => true,
        Some(part) => gives(derivation, of, part),
    }
}

/// Whether each clause's body has this type, or no line.
fn clauses_give(derivation: &Derivation, of: &TypeOf, clauses: &[Clause]) -> bool
    ensures { result ≡ list_all (λ r. gives_of (result_view of.now) (line_at (derivation_view derivation.now) r.body))
        (map clause_view clauses.now) }
{
    for clause in clauses {
        if !gives(derivation, of, clause.body) {
            return false;
        }
    }
    true
}

/// Whether the parts whose result is the term's have its type.
fn tails_agree(derivation: &Derivation, of: &TypeOf, core: &Core) -> bool
    ensures { result ≡ tails_agree_of (derivation_view derivation.now) (result_view of.now) (core_view core.now) }
{
    match core {
        Core::Let {
            var: _,
            bound: _,
            body,
        } => gives(derivation, of, *body),
        Core::If { test: _, yes, no } => {
            gives(derivation, of, *yes) && gives(derivation, of, *no)
        }
        Core::Spawn(body) => gives(derivation, &TypeOf::Base(Base::Unit), *body),
        Core::Guard {
            var: _,
            pattern: _,
            free,
            receives,
        } => {
            gives_too(derivation, of, *free) && clauses_give(derivation, of, receives.as_slice())
        }
        Core::Value(_) | Core::Call { .. } | Core::Print(_) | Core::New(_) | Core::Send { .. } =>
            true,
    }
}

/// Whether the type is the result's of the signature, if that is there.
fn has_result(signatures: &[Signature], function: u32, of: &TypeOf) -> bool
    ensures { result ≡ agrees_with (result_view of.now) (slice_get (map signature_view signatures.now) function) }
{
    match signature_of(signatures, function) {
        None => false,
        Some(signature) => same_type(of, &signature.result),
    }
}

/// Whether the first node of a function has its result type.
fn first_agrees(
    program: &Program,
    derivation: &Derivation,
    signatures: &[Signature],
    number: usize,
    node: &Node,
    function: &Function,
    line: &DerivedNode,
) -> bool
    requires signatures { map signature_view signatures.now ≡ opened_from 1 (program_view program.now).functions }
    requires function { function_at (program_view program.now) node.now.function ≡ Some (function_view function.now) }
    ensures { result ≡ first_agrees_of (program_view program.now) (derivation_view derivation.now)
        (place number (node_view node.now) (function_view function.now) (line_view line.now)) }
{
    function.body as usize != number || has_result(signatures, node.function, &line.of.result)
}

/// Whether the line is one for the node. The signatures are those of the program's functions, the variables have values, and
/// `names_are_in_scope` says whether each variable that the line names is in scope at the node, and `names_are_well` whether they
/// name mailboxes of the interfaces of their types, with patterns of them.
pub fn has_shape(
    program: &Program,
    derivation: &Derivation,
    signatures: &[Signature],
    names_are_in_scope: bool,
    names_are_well: bool,
    number: usize,
    node: &Node,
    function: &Function,
    line: &DerivedNode,
) -> bool
    requires signatures { map signature_view signatures.now ≡ opened_from 1 (program_view program.now).functions }
    requires values { IsTrue (has_values (program_view program.now) (derivation_view derivation.now)) }
    requires node { node_at (program_view program.now) number ≡ Some (node_view node.now) }
    requires function { function_at (program_view program.now) node.now.function ≡ Some (function_view function.now) }
    requires scope { names_are_in_scope ≡ list_all (λ e. is_in_scope (program_view program.now) number e.0) (needs_view line.now.of.env) }
    requires well { names_are_well ≡ list_all (λ e. is_mailbox_of e.1.interface (slice_get (function_view function.now).vars e.0)
        && is_formed_of (scope_of (program_view program.now) (derivation_view derivation.now)) e.1.interface e.1.pattern)
        (needs_view line.now.of.env) }
    ensures { result
        ≡ has_shape_of (program_view program.now) (derivation_view derivation.now)
        (place number (node_view node.now) (function_view function.now) (line_view line.now)) }
{
    let env = line.of.env.as_slice();
    let of = &line.of.result;
    let kind = has_kind(of, node.kind);
    let order = ascends(env);
    let names = both(names_are_in_scope, names_are_well);
    let formed = type_is_formed(program, derivation, of);
    let tails = tails_agree(derivation, of, &node.core);
    let first = first_agrees(
        program, derivation, signatures, number, node, function, line,
    );
    all_six(kind, order, names, formed, tails, first)
}

fn all_six(kind: bool, order: bool, names: bool, formed: bool, tails: bool, first: bool) -> bool
    ensures { result ≡ (kind && (order && (names && (formed && (tails && first))))) }
{
    kind && (order && (names && (formed && (tails && first))))
}
