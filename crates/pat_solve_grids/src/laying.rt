// The sides of several constraints, laid out behind a system.
ghost use Rattle.std.specs.Prelude.{◌≡◌, ◌<◌, ◌≤◌, ◌+◌, length, IfOk};
ghost use Rattle.pat_patterns.specs.Views.{pattern_view};
ghost use Rattle.pat_grid_points.specs.symbols.Views.{symbols_view};
ghost use Rattle.pat_inclusion_spec.specs.bounds.Assignments.{PatternRight};
ghost use Rattle.pat_solve_bounds.specs.lower_bounds.Sides.{sides_view, sides_list};
ghost use Rattle.pat_solve_bounded.specs.replacing.Ascending.{IsAscending};
ghost use Rattle.pat_solve_bounds.specs.renumbered.Renaming.{place_in, renamed as renamed_by};
ghost use Rattle.pat_solve_bounds.specs.renumbered.Systems.{side_at};
ghost use Rattle.pat_solve_grids.specs.Laying.{SidesStand, AreSidesLaid};

use crate::shared::Shared;
use pat_infer_problems::Constraint;
use pat_patterns::Pattern;
use pat_sequences::Sequence;
use pat_solve_bounds::renamed;
use pat_types::Right;
use std::alloc::{AllocError, Global};

/// Lays out both sides of constraints whose numbers stand from the place on, up to the one with which there are more than `most`
/// symbols. The left side is renamed; `None` stands for a right side that is a variable. The answer is the numbers of both sides'
/// symbols.
pub fn lay_some(
    alloc: Global,
    constraints: &[Constraint],
    numbers: &[usize],
    from: usize,
    most: usize,
    variables: &[u32],
    shared: &mut Shared,
) -> Result<Sequence<Option<(usize, usize)>>, AllocError>
    requires ascending { IsAscending variables.now }
    requires from { from ≤ length numbers.now }
    ensures laid { IfOk result (AreSidesLaid (place_in variables.now) (sides_list constraints.now) numbers.now from
        (symbols_view shared.old.symbols) (symbols_view shared.new.symbols)) }
    ensures within { IfOk result (λ sides. from + length sides ≤ length numbers.now) }
    ensures more { IfOk result (λ sides. from < length numbers.now → 0 < length sides) }
{
    let mut sides = Sequence::new(alloc);
    for place in from..numbers.len() {
        let side = lay_at(alloc, constraints, numbers[place], variables, shared)?;
        sides.push(side)?;
        if shared.symbols.len() > most {
            return Ok(sides);
        }
    }
    Ok(sides)
}

/// The sides of the constraint with the number.
fn lay_at(
    alloc: Global,
    constraints: &[Constraint],
    number: usize,
    variables: &[u32],
    shared: &mut Shared,
) -> Result<Option<(usize, usize)>, AllocError>
    requires { IsAscending variables.now }
    ensures { let c = side_at (sides_list constraints.now) number in IfOk result
        (SidesStand (symbols_view shared.old.symbols) (symbols_view shared.new.symbols) (renamed_by (place_in variables.now) c.left) c.right) }
{
    match constraints.get(number) {
        None => lay_both(&Pattern::Zero, &Pattern::Zero, shared),
        Some(constraint) => lay_sides(alloc, constraint, variables, shared),
    }
}

fn lay_sides(
    alloc: Global,
    constraint: &Constraint,
    variables: &[u32],
    shared: &mut Shared,
) -> Result<Option<(usize, usize)>, AllocError>
    requires { IsAscending variables.now }
    ensures { let c = sides_view constraint.now in IfOk result
        (SidesStand (symbols_view shared.old.symbols) (symbols_view shared.new.symbols) (renamed_by (place_in variables.now) c.left) c.right) }
{
    match &constraint.right {
        Right::Var(_) => Ok(None),
        Right::Pattern(right) => {
            let left = renamed(alloc, &constraint.left, variables)?;
            lay_both(&left, right, shared)
        }
    }
}

/// Both sides.
fn lay_both(
    left: &Pattern,
    right: &Pattern,
    shared: &mut Shared,
) -> Result<Option<(usize, usize)>, AllocError>
    ensures { IfOk result (SidesStand (symbols_view shared.old.symbols) (symbols_view shared.new.symbols) (pattern_view left.now)
        (PatternRight (pattern_view right.now))) }
{
    let one = shared.lay(left)?;
    let other = shared.lay(right)?;
    Ok(Some((one, other)))
}
