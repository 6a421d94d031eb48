// The lower bounds of variables, numbered by their places.
ghost use Rattle.std.specs.Prelude.{◌≡◌, ◌<◌, length, map, replicate, IfOk, OnOk, get_or, set};
ghost use Rattle.pat_words_spec.specs.Patterns.{Zero, sum_of};
ghost use Rattle.pat_inclusion_spec.specs.bounds.Assignments.{VarRight};
ghost use Rattle.pat_patterns.specs.Views.{pattern_view, patterns_view};
ghost use Rattle.pat_solve_bounds.specs.lower_bounds.Sides.{sides_view, sides_list};
ghost use Rattle.pat_solve_bounded.specs.replacing.Ascending.{IsAscending};
ghost use Rattle.pat_solve_bounds.specs.renumbered.Renaming.{place_in, renamed as renamed_by};
ghost use Rattle.pat_solve_bounds.specs.renumbered.Systems.{side_at, renamed_side, added, all_added, picked};

use crate::renumbered::renaming::renamed;
use pat_infer_problems::Constraint;
use pat_patterns::{Pattern, sum};
use pat_sequences::Sequence;
use pat_solve_bounded::find_variable;
use pat_types::Right;
use std::alloc::{AllocError, Global};
use std::sync::Arc;

/// The lower bound of each of the variables by the constraints with these numbers: all left sides with it on the right, renamed, and
/// added up as they come.
pub fn system_of(
    alloc: Global,
    constraints: &[Constraint],
    numbers: &[usize],
    variables: &[u32],
) -> Result<Sequence<Pattern>, AllocError>
    requires { IsAscending variables.now }
    ensures { IfOk result (λ system. patterns_view system
        ≡ all_added (map (renamed_side (place_in variables.now)) (picked (sides_list constraints.now) numbers.now)) variables.now
        (replicate (length variables.now) Zero)) }
{
    let mut system = zeros(alloc, variables.len())?;
    for number in numbers {
        add_left(alloc, constraints, *number, variables, &mut system)?;
    }
    Ok(system)
}

/// So many patterns 0.
fn zeros(alloc: Global, count: usize) -> Result<Sequence<Pattern>, AllocError>
    ensures { IfOk result (λ system. patterns_view system ≡ replicate count Zero) }
{
    let mut system = Sequence::new(alloc);
    for _ in 0..count {
        system.push(Pattern::Zero)?;
    }
    Ok(system)
}

/// Adds the left side of the constraint with the number to the lower bound of the variable on its right, if there is one.
fn add_left(
    alloc: Global,
    constraints: &[Constraint],
    number: usize,
    variables: &[u32],
    system: &mut Sequence<Pattern>,
) -> Result<(), AllocError>
    requires ascending { IsAscending variables.now }
    requires as_many { length system.old ≡ length variables.now }
    ensures { OnOk result (patterns_view system.new
        ≡ added (renamed_side (place_in variables.now) (side_at (sides_list constraints.now) number)) variables.now
        (patterns_view system.old)) }
{
    match constraints.get(number) {
        None => Ok(()),
        Some(constraint) => add_side(alloc, constraint, variables, system),
    }
}

fn add_side(
    alloc: Global,
    constraint: &Constraint,
    variables: &[u32],
    system: &mut Sequence<Pattern>,
) -> Result<(), AllocError>
    requires ascending { IsAscending variables.now }
    requires as_many { length system.old ≡ length variables.now }
    ensures { OnOk result (patterns_view system.new
        ≡ added (renamed_side (place_in variables.now) (sides_view constraint.now)) variables.now (patterns_view system.old)) }
{
    match &constraint.right {
        Right::Pattern(_) => Ok(()),
        Right::Var(variable) => add_for(alloc, *variable, &constraint.left, variables, system),
    }
}

fn add_for(
    alloc: Global,
    variable: u32,
    left: &Pattern,
    variables: &[u32],
    system: &mut Sequence<Pattern>,
) -> Result<(), AllocError>
    requires ascending { IsAscending variables.now }
    requires as_many { length system.old ≡ length variables.now }
    ensures { OnOk result (patterns_view system.new
        ≡ added (record { left = renamed_by (place_in variables.now) (pattern_view left.now); right = VarRight variable }) variables.now
        (patterns_view system.old)) }
{
    match find_variable(variables, variable) {
        None => Ok(()),
        Some(place) => {
            let left = renamed(alloc, left, variables)?;
            add_at(alloc, place, left, system)
        }
    }
}

/// Adds the pattern to the lower bound at the place.
fn add_at(
    alloc: Global,
    place: usize,
    left: Pattern,
    system: &mut Sequence<Pattern>,
) -> Result<(), AllocError>
    requires { place < length system.old }
    ensures { OnOk result (patterns_view system.new
        ≡ set (patterns_view system.old) place (sum_of (get_or (patterns_view system.old) place Zero) (pattern_view left))) }
{
    let made = system.replace(place, Pattern::Zero);
    let whole = sum(alloc, made, left)?;
    let _ = system.replace(place, whole);
    Ok(())
}

/// Drops a system. A lower bound is a chain of sums, as long as there are constraints: it is taken apart by a loop.
pub fn let_go(mut system: Sequence<Pattern>) {
    while let Some(bound) = system.pop() {
        let_chain_go(bound);
    }
}

fn let_chain_go(bound: Pattern) {
    let mut rest = bound;
    loop {
        match rest {
            Pattern::Sum(left, _) => match Arc::into_inner(left) {
                Some(part) => rest = part,
                None => return,
            },
            _ => return,
        }
    }
}
