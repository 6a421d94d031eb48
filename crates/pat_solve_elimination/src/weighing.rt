// How large a pattern may get on the way while variables give way to their values, one after another.
ghost use Rattle.std.specs.Prelude.{◌≡◌, ◌≤◌, ◌<◌, ◌∷◌, ◌+◌, ◌⊎◌, ℕ, Some, length, slice_get, IfOk, IfSome};
ghost use Rattle.pat_patterns.specs.Views.{pattern_view};
ghost use Rattle.pat_patterns.specs.postfix_form.Postfix.{nodes};
ghost use Rattle.pat_patterns.specs.postfix_form.Views.{pointed};
ghost use Rattle.pat_solve_bounded.specs.Variables.{any_has};
ghost use Rattle.pat_solve_bounded.specs.Views.{measured_view};
ghost use Rattle.pat_solve_bounded.specs.replacing.Ascending.{IsAscending};
ghost use Rattle.pat_solve_elimination.specs.Weighing.{weighed, all_weighed, deep, nodes_by, levels_by};
ghost use Rattle.pat_limits.specs.Limits.{most_nodes, most_levels};

use crate::growing::Growth;
use pat_limits::MOST_LEVELS;
use pat_patterns::Pattern;
use pat_sequences::Stack;
use pat_solve_bounded::{Measured, find_variable};
use std::alloc::{AllocError, Global};

/// What the pattern comes to, where each of the variables counts for as much as is said; `None` where that is past the limits.
pub fn weigh(
    alloc: Global,
    variables: &[u32],
    weights: &[Growth],
    f: &Measured,
) -> Result<Option<Growth>, AllocError>
    requires ascending { IsAscending variables.now }
    requires as_many { length variables.now ≡ length weights.now }
    ensures nodes { IfOk result (λ whole. IfSome whole
        (λ w. (weighed (nodes_by variables.now weights.now) (measured_view f.now) ≤ w.nodes) × (w.nodes ≤ most_nodes))) }
    ensures levels { IfOk result (λ whole. IfSome whole
        (λ w. (deep (levels_by variables.now weights.now) (measured_view f.now) ≤ w.levels) × (w.levels ≤ most_levels))) }
{
    let mut growth = Growth {
        nodes: 0,
        levels: 1,
    };
    let mut waiting = Stack::new(alloc);
    waiting.push(&f.pattern)?;
    while let Some(part) = waiting.pop() {
        match weigh_part(part, variables, weights, growth, &mut waiting)? {
            Some(next) => growth = next,
            None => return Ok(None),
        }
    }
    Ok(within_levels(growth, f.levels))
}

/// With so many levels above what comes in; `None` where these are too many.
fn within_levels(growth: Growth, levels: u32) -> Option<Growth>
    ensures { IfSome result (λ w. (w.nodes ≡ growth.nodes) × (growth.levels + levels ≤ w.levels + 1) × (w.levels ≤ most_levels)) }
{
    let above = levels.saturating_sub(1);
    let whole = growth.levels.saturating_add(above);
    if whole > MOST_LEVELS {
        return None;
    }
    Some(Growth {
        nodes: growth.nodes,
        levels: whole,
    })
}

/// With the part, whose own parts wait.
fn weigh_part<'a>(
    part: &'a Pattern,
    variables: &[u32],
    weights: &[Growth],
    growth: Growth,
    waiting: &mut Stack<&'a Pattern>,
) -> Result<Option<Growth>, AllocError>
    requires ascending { IsAscending variables.now }
    requires as_many { length variables.now ≡ length weights.now }
    ensures nodes { let w = nodes_by variables.now weights.now in
        IfOk result (λ made. IfSome made (λ next.
        (next.nodes + all_weighed w (pointed waiting.new) ≡ growth.nodes + all_weighed w (pattern_view part.now ∷ pointed waiting.old))
        × (next.nodes ≤ most_nodes))) }
    ensures levels { IfOk result (λ made. IfSome made (λ next. growth.levels ≤ next.levels)) }
    ensures settled { let d = levels_by variables.now weights.now in
        IfOk result (λ made. IfSome made (λ next. (k : ℕ)
        → (d k ≤ next.levels) ⊎ (any_has k (pointed waiting.new) ≡ any_has k (pattern_view part.now ∷ pointed waiting.old)))) }
    ensures fewer { IfOk result (λ made. IfSome made
        (λ next. nodes (pointed waiting.new) < nodes (pattern_view part.now ∷ pointed waiting.old))) }
{
    // `growing` walks so too; what its walk keeps true is of values in place of weights.
    match part {
        Pattern::Zero | Pattern::One | Pattern::Tag(_) => Ok(growth.with(1, 1)),
        Pattern::Var(number) => Ok(weigh_variable(variables, weights, *number, growth)),
        Pattern::Sum(left, right) | Pattern::Prod(left, right) => {
            waiting.push(left)?;
            waiting.push(right)?;
            Ok(growth.with(1, 1))
        }
        Pattern::Star(inner) => {
            waiting.push(inner)?;
            Ok(growth.with(1, 1))
        }
    }
}

/// With what the variable counts for.
fn weigh_variable(
    variables: &[u32],
    weights: &[Growth],
    variable: u32,
    growth: Growth,
) -> Option<Growth>
    requires ascending { IsAscending variables.now }
    requires as_many { length variables.now ≡ length weights.now }
    ensures nodes { IfSome result (λ next. (next.nodes ≡ growth.nodes + nodes_by variables.now weights.now variable)
        × (next.nodes ≤ most_nodes)) }
    ensures levels { IfSome result (λ next. (growth.levels ≤ next.levels) × (levels_by variables.now weights.now variable ≤ next.levels)) }
{
    match find_variable(variables, variable) {
        Some(place) => {
            let weight = weight_at(weights, place);
            growth.with(weight.nodes, weight.levels)
        }
        None => growth.with(1, 1),
    }
}

fn weight_at(weights: &[Growth], place: usize) -> Growth
    requires { place < length weights.now }
    ensures { slice_get weights.now place ≡ Some result }
{
    weights[place]
}
