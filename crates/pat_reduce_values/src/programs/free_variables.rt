// The free variables of each node of a program, from the last node to the first.
ghost use Rattle.std.specs.Prelude.{◌≡◌, ℕ, ◌||◌, ◌&&◌, ◌++◌, not, map, IfOk, OnOk};
ghost use Rattle.std.specs.List.{list_any};
ghost use Rattle.pat_semantics_laws.specs.Values.{occurs};
ghost use Rattle.pat_semantics_laws.specs.Programs.{is_among, option_list, clause_uses, core_uses, is_free};
ghost use Rattle.pat_semantics_laws.specs.WellFormed.{WellFormed};
ghost use Rattle.pat_core.specs.Views.{expr_view, clause_view, core_view, program_view};
ghost use Rattle.pat_reduce_values.specs.programs.FreeVariables.{is_listed};

use crate::programs::Variables;
use pat_core::{Clause, Core, Expr, Program};
use pat_sequences::Sequence;
use std::alloc::{AllocError, Global};

/// The free variables of each node, by its number.
pub fn list_free(alloc: Global, program: &Program) -> Result<Sequence<Variables>, AllocError>
    requires { WellFormed (program_view program.now) }
    ensures { IfOk result (λ free. (x n : ℕ) → is_listed free n x ≡ is_free (program_view program.now) x n) }
{
    let nodes = program.nodes.as_slice();
    let mut free = Sequence::new(alloc);
    for _ in nodes {
        free.push(Variables::new(alloc))?;
    }
    for n in (0..nodes.len()).rev() {
        let variables = free_of(alloc, &nodes[n].core, &free)?;
        free.replace(n, variables);
    }
    Ok(free)
}

// The free variables of a term, by those of its parts.
fn free_of(alloc: Global, core: &Core, free: &Sequence<Variables>) -> Result<Variables, AllocError>
    ensures { IfOk result (λ own. (x : ℕ) → is_among x own.listed ≡ core_uses (λ k. is_listed free.now k x) x (core_view core.now)) }
{
    let mut own = Variables::new(alloc);
    add_term(&mut own, free, core)?;
    Ok(own)
}

// Adds the free variables of a term.
fn add_term(own: &mut Variables, free: &Sequence<Variables>, core: &Core) -> Result<(), AllocError>
    ensures { OnOk result ((x : ℕ) → is_among x own.new.listed
        ≡ (is_among x own.old.listed || core_uses (λ k. is_listed free.now k x) x (core_view core.now))) }
{
    match core {
        Core::Value(e) => add_variables(own, e),
        Core::Print(e) => add_variables(own, e),
        Core::Let { var, bound, body } => {
            // The body first: it mostly has more, and into an empty list they go one behind another.
            add_all(own, free, *body, &[], *var)?;
            add_all(own, free, *bound, &[], None)
        }
        Core::Call { args, .. } => add_arguments(own, args.as_slice()),
        Core::If { test, yes, no } => {
            add_variables(own, test)?;
            add_all(own, free, *yes, &[], None)?;
            add_all(own, free, *no, &[], None)
        }
        Core::New(_) => Ok(()),
        Core::Send { target, args, .. } => {
            own.add(*target)?;
            add_arguments(own, args.as_slice())
        }
        Core::Spawn(body) => add_all(own, free, *body, &[], None),
        Core::Guard {
            var,
            free: empty,
            receives,
            ..
        } => {
            own.add(*var)?;
            add_optional(own, free, *empty)?;
            add_clauses(own, free, receives.as_slice())
        }
    }
}

// Adds the free variables of a node, if there is one.
fn add_optional(
    own: &mut Variables,
    free: &Sequence<Variables>,
    node: Option<u32>,
) -> Result<(), AllocError>
    ensures { OnOk result ((x : ℕ) → is_among x own.new.listed
        ≡ (is_among x own.old.listed || list_any (λ k. is_listed free.now k x) (option_list node))) }
{
    match node {
        Some(node) => add_all(own, free, node, &[], None),
        None => Ok(()),
    }
}

// Adds the free variables of receive clauses.
fn add_clauses(
    own: &mut Variables,
    free: &Sequence<Variables>,
    clauses: &[Clause],
) -> Result<(), AllocError>
    ensures { OnOk result ((x : ℕ) → is_among x own.new.listed
        ≡ (is_among x own.old.listed || list_any (clause_uses (λ k. is_listed free.now k x) x) (map clause_view clauses.now))) }
{
    for clause in clauses {
        add_all(
            own,
            free,
            clause.body,
            clause.vars.as_slice(),
            Some(clause.from),
        )?;
    }
    Ok(())
}

// Adds the free variables of a node but those that are bound there.
fn add_all(
    own: &mut Variables,
    free: &Sequence<Variables>,
    node: u32,
    bound: &[u32],
    last: Option<u32>,
) -> Result<(), AllocError>
    ensures { OnOk result ((x : ℕ) → is_among x own.new.listed
        ≡ (is_among x own.old.listed || (is_listed free.now node x && not (is_among x (bound.now ++ option_list last))))) }
{
    let Some(variables) = free.as_slice().get(node as usize) else {
        return Ok(());
    };
    for variable in variables.as_slice() {
        if !is_bound(*variable, bound, last) {
            own.add(*variable)?;
        }
    }
    Ok(())
}

fn is_bound(variable: u32, bound: &[u32], last: Option<u32>) -> bool
    ensures { result ≡ is_among variable (bound.now ++ option_list last) }
{
    bound.contains(&variable) || last == Some(variable)
}

// Adds the variables of expressions.
fn add_arguments(own: &mut Variables, args: &[Expr]) -> Result<(), AllocError>
    ensures { OnOk result ((x : ℕ) → is_among x own.new.listed
        ≡ (is_among x own.old.listed || list_any (occurs x) (map expr_view args.now))) }
{
    for e in args {
        add_variables(own, e)?;
    }
    Ok(())
}

// Adds the variables of an expression.
fn add_variables(own: &mut Variables, e: &Expr) -> Result<(), AllocError>
    ensures { OnOk result ((x : ℕ) → is_among x own.new.listed ≡ (is_among x own.old.listed || occurs x (expr_view e.now))) }
{
    match e {
        Expr::Var(variable) => own.add(*variable),
        Expr::Unit | Expr::Bool(_) | Expr::Int(_) | Expr::Str(_) => Ok(()),
        Expr::Op(_, left, right) => {
            add_variables(own, left)?;
            add_variables(own, right)
        }
    }
}
