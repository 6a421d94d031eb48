// Names looked for upwards.
ghost use Rattle.std.specs.Prelude.{◌≡◌, ◌<◌, ℕ, suc, true, Some, None, length, map, slice_get, option_map, option_copied, IsTrue};
ghost use Rattle.std.specs.List.{list_all};
ghost use Rattle.std.specs.Map.{keys_of};
ghost use Rattle.pat_semantics_spec.specs.Programs.{core_at, is_among, clause_binders};
ghost use Rattle.pat_semantics_spec.specs.WellFormed.{WellFormed};
ghost use Rattle.pat_core.specs.Views.{core_view, clause_view, program_view};
ghost use Rattle.pat_types.specs.Views.{needs_view};
ghost use Rattle.pat_derivation_spec.specs.Scopes.{function_of, bound_in, bound_by_clauses, is_param, is_in_scope, is_in_scope_within};
ghost use Rattle.pat_derivation_spec.specs.Derivations.{line_at};
ghost use Rattle.pat_derivations.specs.Views.{line_view, derivation_view};
ghost use Rattle.pat_judge_nodes.specs.scopes.Upwards.{AreAbove, AreScopedBefore, after, StaysInside};

use pat_core::{Clause, Core, Program};
use pat_derivation_laws::scope_laws;
use pat_derivations::{Derivation, DerivedNode, holds};
use pat_types::MailboxType;

/// What there is of a name at one node.
#[derive(Clone, Copy, Debug, PartialEq, Eq)]
enum Found {
    Here,
    Nowhere,
    /// It is to be looked for at this node.
    Above(usize),
}

/// Whether each name of the environment is in scope at the node, where those are that the lines of earlier nodes name. Most names
/// are named at the node above too; the others are looked for upwards.
pub fn names_in_scope(
    above: &[Option<usize>],
    program: &Program,
    derivation: &Derivation,
    node: usize,
    env: &[(u32, MailboxType)],
) -> bool
    requires well { WellFormed (program_view program.now) }
    requires above { AreAbove (program_view program.now) above.now }
    requires node { node < length program.now.nodes }
    requires before { AreScopedBefore (program_view program.now) (derivation_view derivation.now) node }
    ensures { result ≡ list_all (λ e. is_in_scope (program_view program.now) node e.0) (needs_view env.now) }
{
    scope_laws();
    match above[node] {
        None => are_in_scope(above, program, node, &[], env),
        Some(outer) => match line_of(derivation, outer) {
            None => are_in_scope(above, program, node, &[], env),
            Some(line) => are_in_scope(above, program, node, line.of.env.as_slice(), env),
        },
    }
}

/// The line of a node, if there is one.
#[tactic(auto, using(crate::proofs::Above::line_get))]
fn line_of(derivation: &Derivation, node: usize) -> Option<&DerivedNode>
    ensures { option_map line_view (option_copied result) ≡ line_at (derivation_view derivation.now) node }
{
    derivation.nodes.as_slice().get(node)
}

/// Whether each name of the environment is in scope at the node, where those in `outer` are.
fn are_in_scope(
    above: &[Option<usize>],
    program: &Program,
    node: usize,
    outer: &[(u32, MailboxType)],
    env: &[(u32, MailboxType)],
) -> bool
    requires above { AreAbove (program_view program.now) above.now }
    requires node { node < length program.now.nodes }
    requires outer { list_all (λ e. is_in_scope (program_view program.now) node e.0) (needs_view outer.now) ≡ true }
    ensures { result ≡ list_all (λ e. is_in_scope (program_view program.now) node e.0) (needs_view env.now) }
{
    let mut near = 0;
    for (name, _) in env {
        if !is_in_scope_near(above, program, node, outer, &mut near, *name) {
            return false;
        }
    }
    true
}

/// Whether the name is in scope at the node, where those in `outer` are. It is first looked for from the place `near` on.
#[tactic(auto, using(crate::proofs::Above::scoped_if_named))]
fn is_in_scope_near(
    above: &[Option<usize>],
    program: &Program,
    node: usize,
    outer: &[(u32, MailboxType)],
    near: &mut usize,
    name: u32,
) -> bool
    requires above { AreAbove (program_view program.now) above.now }
    requires node { node < length program.now.nodes }
    requires outer { list_all (λ e. is_in_scope (program_view program.now) node e.0) (needs_view outer.now) ≡ true }
    ensures { result ≡ is_in_scope (program_view program.now) node name }
{
    is_named_near(outer, near, name) || in_scope(above, program, node, name)
}

/// Whether the name is found from the place `near` on, before a higher one. The place is then the one where the search ended.
#[tactic(auto, using(crate::proofs::Above::named_at))]
fn is_named_near(env: &[(u32, MailboxType)], near: &mut usize, name: u32) -> bool
    ensures { IsTrue result → is_among name (keys_of (needs_view env.now)) ≡ true }
{
    let mut place = *near;
    while place < env.len() {
        let own = env[place].0;
        if own >= name {
            *near = place;
            return own == name;
        }
        place += 1;
    }
    *near = place;
    false
}

/// Whether the variable is in scope at the node.
pub fn in_scope(above: &[Option<usize>], program: &Program, node: usize, variable: u32) -> bool
    requires above { AreAbove (program_view program.now) above.now }
    requires node { node < length program.now.nodes }
    ensures { result ≡ is_in_scope (program_view program.now) node variable }
{
    let mut at = node;
    let mut left = program.nodes.len();
    while left > 0 {
        left -= 1;
        match look(above, program, at, variable) {
            Found::Here => return true,
            Found::Nowhere => return false,
            Found::Above(next) => at = next,
        }
    }
    is_parameter(program, at, variable)
}

/// Looks at the node itself, and at what the node above binds in it.
fn look(above: &[Option<usize>], program: &Program, at: usize, variable: u32) -> Found
    requires above { AreAbove (program_view program.now) above.now }
    requires at { at < length program.now.nodes }
    ensures found { (up : ℕ) → is_in_scope_within (suc up) (program_view program.now) at variable
        ≡ after (program_view program.now) variable up result }
    ensures inside { StaysInside (program_view program.now) result }
{
    if is_parameter(program, at, variable) {
        return Found::Here;
    }
    match above[at] {
        None => Found::Nowhere,
        Some(next) => if binds(program, next, at, variable) {
            Found::Here
        } else {
            Found::Above(next)
        },
    }
}

/// Whether the variable is a parameter of the node's function.
#[tactic(auto, using(crate::proofs::Lookups::function_get))]
fn is_parameter(program: &Program, node: usize, variable: u32) -> bool
    ensures { result ≡ is_param variable (function_of (program_view program.now) node) }
{
    match program.nodes.as_slice().get(node) {
        None => false,
        Some(node) => match program.functions.as_slice().get(node.function as usize) {
            None => false,
            Some(function) => (variable as usize) < function.params.len(),
        },
    }
}

/// Whether the node binds the variable in this part.
#[tactic(auto, using(crate::proofs::Lookups::core_get))]
fn binds(program: &Program, node: usize, part: usize, variable: u32) -> bool
    ensures { result ≡ is_among variable (bound_in part (core_at (program_view program.now) node)) }
{
    match program.nodes.as_slice().get(node) {
        None => false,
        Some(node) => term_binds(&node.core, part, variable),
    }
}

fn term_binds(core: &Core, part: usize, variable: u32) -> bool
    ensures { result ≡ is_among variable (bound_in part (Some (core_view core.now))) }
{
    match core {
        Core::Let {
            var: Some(own),
            bound: _,
            body,
        } => part == *body as usize && variable == *own,
        Core::Guard {
            var: _,
            pattern: _,
            free: _,
            receives,
        } => clauses_bind(receives.as_slice(), part, variable),
        _ => false,
    }
}

fn clauses_bind(clauses: &[Clause], part: usize, variable: u32) -> bool
    ensures { result ≡ is_among variable (bound_by_clauses part (map clause_view clauses.now)) }
{
    for clause in clauses {
        if part == clause.body as usize {
            return clause_binds(clause, variable);
        }
    }
    false
}

/// Whether the clause binds the variable.
#[tactic(auto, using(crate::proofs::Lookups::among_last))]
fn clause_binds(clause: &Clause, variable: u32) -> bool
    ensures { result ≡ is_among variable (clause_binders (clause_view clause.now)) }
{
    holds(clause.vars.as_slice(), variable) || variable == clause.from
}
