// The free variables of each node, in ascending order.
ghost use Rattle.std.specs.Prelude.{◌≡◌, ℕ, true, ◌||◌, ◌&&◌, ◌++◌, not, nat_eq, map, IfOk, OnOk};
ghost use Rattle.std.specs.List.{list_any};
ghost use Rattle.pat_semantics_spec.specs.Values.{occurs};
ghost use Rattle.pat_semantics_spec.specs.Programs.{is_among, option_list, clause_uses, core_uses};
ghost use Rattle.pat_checkpoint_spec.specs.Numbers.{ascends};
ghost use Rattle.pat_semantics_spec.specs.WellFormed.{WellFormed};
ghost use Rattle.pat_core.specs.Views.{expr_view, clause_view, core_view, program_view};
ghost use Rattle.pat_checkpoint_parts.specs.Lists.{is_listed, AreFree};

use pat_core::{Clause, Core, Expr, Program};
use pat_sequences::Sequence;
use std::alloc::{AllocError, Global};

/// The free variables of each node, by its number.
pub fn free_variables(
    alloc: Global,
    program: &Program,
) -> Result<Sequence<Sequence<u32>>, AllocError>
    requires { WellFormed (program_view program.now) }
    ensures { IfOk result (λ free. AreFree (program_view program.now) free) }
{
    let nodes = program.nodes.as_slice();
    let mut free = Sequence::new(alloc);
    for _ in nodes {
        free.push(Sequence::new(alloc))?;
    }
    for n in (0..nodes.len()).rev() {
        let variables = free_of(alloc, &nodes[n].core, &free)?;
        free.replace(n, variables);
    }
    Ok(free)
}

/// The free variables of a term, by those of its parts.
fn free_of(
    alloc: Global,
    core: &Core,
    free: &Sequence<Sequence<u32>>,
) -> Result<Sequence<u32>, AllocError>
    ensures uses { IfOk result (λ own. (x : ℕ) → is_among x own ≡ core_uses (λ k. is_listed free.now k x) x (core_view core.now)) }
    ensures ascends { IfOk result (λ own. ascends 0 own ≡ true) }
{
    let mut own = Sequence::new(alloc);
    add_term(&mut own, free, core)?;
    put_in_order(&mut own.items);
    Ok(own)
}

/// In ascending order, each once.
fn put_in_order(numbers: &mut Vec<u32>)
    ensures same { (x : ℕ) → is_among x numbers.new.items ≡ is_among x numbers.old.items }
    ensures ascends { ascends 0 numbers.new.items ≡ true }
{
    numbers.sort_unstable();
    numbers.dedup();
}

/// Adds the free variables of a term. `pat_reduce_values` lists them alike for each run, without an order; here they ascend, and each stands once.
fn add_term(
    own: &mut Sequence<u32>,
    free: &Sequence<Sequence<u32>>,
    core: &Core,
) -> Result<(), AllocError>
    ensures { OnOk result ((x : ℕ) → is_among x own.new
        ≡ (is_among x own.old || core_uses (λ k. is_listed free.now k x) x (core_view core.now))) }
{
    match core {
        Core::Value(e) => add_variables(own, e),
        Core::Print(e) => add_variables(own, e),
        Core::Let { var, bound, body } => {
            add_all(own, free, *bound, &[], None)?;
            add_all(own, free, *body, &[], *var)
        }
        Core::Call { args, .. } => add_arguments(own, args.as_slice()),
        Core::If { test, yes, no } => {
            add_variables(own, test)?;
            add_all(own, free, *yes, &[], None)?;
            add_all(own, free, *no, &[], None)
        }
        Core::New(_) => Ok(()),
        Core::Send { target, args, .. } => {
            add(own, *target)?;
            add_arguments(own, args.as_slice())
        }
        Core::Spawn(body) => add_all(own, free, *body, &[], None),
        Core::Guard {
            var,
            free: empty,
            receives,
            ..
        } => {
            add(own, *var)?;
            add_optional(own, free, *empty)?;
            add_clauses(own, free, receives.as_slice())
        }
    }
}

/// Adds the free variables of a node, if there is one.
fn add_optional(
    own: &mut Sequence<u32>,
    free: &Sequence<Sequence<u32>>,
    node: Option<u32>,
) -> Result<(), AllocError>
    ensures { OnOk result ((x : ℕ) → is_among x own.new
        ≡ (is_among x own.old || list_any (λ k. is_listed free.now k x) (option_list node))) }
{
    match node {
        Some(node) => add_all(own, free, node, &[], None),
        None => Ok(()),
    }
}

/// Adds the free variables of receive clauses.
fn add_clauses(
    own: &mut Sequence<u32>,
    free: &Sequence<Sequence<u32>>,
    clauses: &[Clause],
) -> Result<(), AllocError>
    ensures { OnOk result ((x : ℕ) → is_among x own.new
        ≡ (is_among x own.old || list_any (clause_uses (λ k. is_listed free.now k x) x) (map clause_view clauses.now))) }
{
    for clause in clauses {
        add_all(
            own,
            free,
            clause.body,
            clause.vars.as_slice(),
            Some(clause.from),
        )?;
    }
    Ok(())
}

/// Adds the free variables of a node but those that are bound there.
fn add_all(
    own: &mut Sequence<u32>,
    free: &Sequence<Sequence<u32>>,
    node: u32,
    bound: &[u32],
    last: Option<u32>,
) -> Result<(), AllocError>
    ensures { OnOk result ((x : ℕ) → is_among x own.new
        ≡ (is_among x own.old || (is_listed free.now node x && not (is_among x (bound.now ++ option_list last))))) }
{
    let Some(variables) = free.as_slice().get(node as usize) else {
        return Ok(());
    };
    for variable in variables.as_slice() {
        if !is_bound(*variable, bound, last) {
            add(own, *variable)?;
        }
    }
    Ok(())
}

fn is_bound(variable: u32, bound: &[u32], last: Option<u32>) -> bool
    ensures { result ≡ is_among variable (bound.now ++ option_list last) }
{
    bound.contains(&variable) || last == Some(variable)
}

/// Adds the variables of expressions.
fn add_arguments(own: &mut Sequence<u32>, args: &[Expr]) -> Result<(), AllocError>
    ensures { OnOk result ((x : ℕ) → is_among x own.new ≡ (is_among x own.old || list_any (occurs x) (map expr_view args.now))) }
{
    for e in args {
        add_variables(own, e)?;
    }
    Ok(())
}

/// Adds the variables of an expression.
fn add_variables(own: &mut Sequence<u32>, e: &Expr) -> Result<(), AllocError>
    ensures { OnOk result ((x : ℕ) → is_among x own.new ≡ (is_among x own.old || occurs x (expr_view e.now))) }
{
    match e {
        Expr::Var(variable) => add(own, *variable),
        Expr::Unit | Expr::Bool(_) | Expr::Int(_) | Expr::Str(_) => Ok(()),
        Expr::Op(_, left, right) => {
            add_variables(own, left)?;
            add_variables(own, right)
        }
    }
}

/// Adds a variable.
#[tactic(auto, using(crate::proofs::FreeLists::among_behind))]
fn add(own: &mut Sequence<u32>, variable: u32) -> Result<(), AllocError>
    ensures { OnOk result ((x : ℕ) → is_among x own.new ≡ (is_among x own.old || nat_eq x variable)) }
{
    own.push(variable)
}
