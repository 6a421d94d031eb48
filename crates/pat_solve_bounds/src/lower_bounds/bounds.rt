// Lower bounds, as far as they are within the limits.
ghost use Rattle.std.specs.Prelude.{◌≡◌, ◌<◌, ◌≤◌, ℕ, Some, length, map, get_or, option_map, IfOk};
ghost use Rattle.pat_words_spec.specs.Patterns.{Zero};
ghost use Rattle.pat_inclusion_spec.specs.bounds.Assignments.{lower_of};
ghost use Rattle.pat_patterns.specs.Views.{pattern_view};
ghost use Rattle.pat_solve_bounded.specs.Limits.{within, sum_within};
ghost use Rattle.pat_solve_bounded.specs.Views.{measured_view, limited_view};
ghost use Rattle.pat_solve_bounds.specs.lower_bounds.Indexes.{IsIndexOf};
ghost use Rattle.pat_solve_bounds.specs.lower_bounds.Sides.{left_at, sides_list};
ghost use Rattle.pat_solve_bounds.specs.lower_bounds.Sums.{sum_all};

use crate::lower_bounds::indexing::Index;
use pat_infer_problems::{Constraint, Problem};
use pat_patterns::Pattern;
use pat_solve_bounded::{Measured, Part, measure, sum};
use std::alloc::{AllocError, Global};

/// The lower bound of the variable: all left sides of which it is the right side, added up as they come. `None` comes exactly where
/// it has more than 65,536 nodes or 16,384 levels, and nothing larger is made on the way.
pub fn lower_bound(
    alloc: Global,
    index: &Index,
    problem: &Problem,
    variable: u32,
) -> Result<Option<Measured>, AllocError>
    requires index { IsIndexOf problem.now index.now }
    requires variable { variable ≤ length problem.now.vars }
    ensures { IfOk result (λ m. option_map measured_view m ≡ within (lower_of (sides_list problem.now.constraints) variable)) }
{
    sum_of_lefts(
        alloc,
        problem.constraints.as_slice(),
        index.lefts_of(variable),
    )
}

/// The sum of the left sides of the constraints with these numbers.
fn sum_of_lefts(
    alloc: Global,
    constraints: &[Constraint],
    numbers: &[usize],
) -> Result<Option<Measured>, AllocError>
    requires { (j : ℕ) → j < length numbers.now → get_or numbers.now j 0 < length constraints.now }
    ensures { IfOk result (λ m. option_map measured_view m ≡ sum_all (Some Zero) (map (left_at constraints.now) numbers.now)) }
{
    let mut made = Some(Part::Made(Measured::zero()));
    for number in numbers {
        made = with_left(alloc, made, left_of(constraints, *number))?;
    }
    kept(made)
}

/// The left side of the constraint with this number.
fn left_of(constraints: &[Constraint], number: usize) -> &Pattern
    requires { number < length constraints.now }
    ensures { pattern_view result.now ≡ left_at constraints.now number }
{
    &constraints[number].left
}

/// The sum with one more left side.
fn with_left<'a>(
    alloc: Global,
    made: Option<Part<'a>>,
    left: &Pattern,
) -> Result<Option<Part<'a>>, AllocError>
    ensures { IfOk result (λ p. limited_view p ≡ sum_within (limited_view made.entry) (within (pattern_view left.now))) }
{
    let own = measure(left.copy()?);
    match own {
        Some(own) => sum(alloc, made, Some(Part::Made(own))),
        None => sum(alloc, made, None),
    }
}

/// A part as a pattern of its own, unless it is too large.
fn kept(part: Option<Part>) -> Result<Option<Measured>, AllocError>
    ensures { IfOk result (λ m. option_map measured_view m ≡ limited_view part.entry) }
{
    match part {
        Some(part) => Ok(Some(part.into_measured()?)),
        None => Ok(None),
    }
}
