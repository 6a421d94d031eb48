// A problem that grows: variables, constraints and types of nodes.
ghost use Rattle.std.specs.Prelude.{◌≡◌, ◌+◌, ◌∷◌, [], length, IfOk, OnOk};
ghost use Rattle.pat_patterns.specs.Views.{pattern_view};
ghost use Rattle.pat_types.specs.Views.{right_form, node_type_view};
ghost use Rattle.pat_infer_problems.specs.Views.{placed_variable_of, placed_constraint_of};
ghost use Rattle.pat_infer_problems.specs.Growing.{Grows};

use crate::problem::{Constraint, Problem, VarDecl};
use pat_patterns::Pattern;
use pat_syntax::Span;
use pat_types::{NodeType, right_of};
use std::alloc::AllocError;

/// Adds a variable, and answers its number. Want of memory comes where there is none, or where 2^32 - 1 variables are there.
pub fn add_variable(problem: &mut Problem, declared: VarDecl) -> Result<u32, AllocError>
    ensures number { IfOk result (λ k. k ≡ 1 + length problem.old.vars) }
    ensures grows { OnOk result (Grows problem.old problem.new (placed_variable_of declared ∷ []) [] []) }
{
    let count = problem.vars.len();
    if count >= u32::MAX as usize {
        return Err(AllocError);
    }
    problem.vars.push(declared)?;
    Ok(count as u32 + 1)
}

/// Adds a constraint of patterns of an interface.
pub fn add_constraint(
    problem: &mut Problem,
    interface: u32,
    left: Pattern,
    right: Pattern,
    span: Span,
) -> Result<(), AllocError>
    ensures { OnOk result (Grows problem.old problem.new []
        (placed_constraint_of interface (pattern_view left) (right_form (pattern_view right)) span ∷ []) []) }
{
    problem.constraints.push(Constraint {
        interface,
        left,
        right: right_of(right),
        span,
    })
}

/// Sets the type of a node. A number that no node has changes nothing.
pub fn set_node(problem: &mut Problem, node: u32, of: NodeType)
    ensures { Grows problem.old problem.new [] [] ((node, node_type_view of) ∷ []) }
{
    let place = node as usize;
    if place < problem.nodes.len() {
        let _ = problem.nodes.replace(place, of);
    }
}
