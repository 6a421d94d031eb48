// The closed-form values of an interface's variables, by their lower bounds.
ghost use Rattle.std.specs.Prelude.{◌≡◌, ◌<◌, ◌≤◌, ℕ, List, length, map, get_or, IfOk};
ghost use Rattle.pat_infer_spec.specs.Constraints.{Constraint as GhostConstraint};
ghost use Rattle.pat_inclusion_spec.specs.bounds.Assignments.{lower_of};
ghost use Rattle.pat_solve_spec.specs.LowerBounds.{lowers as lowers_by};
ghost use Rattle.pat_solve_bounded.specs.Views.{measured_list};
ghost use Rattle.pat_solve_bounded.specs.replacing.Ascending.{IsAscending};
ghost use Rattle.pat_solve_bounds.specs.lower_bounds.Sides.{sides_list};
ghost use Rattle.pat_solve_bounds.specs.lower_bounds.Indexes.{IsIndexOf};
ghost use Rattle.pat_solve_closed_forms.specs.Rounds.{LowersAre, RoundsGive};

use pat_infer_problems::Problem;
use pat_sequences::Sequence;
use pat_solve_bounded::Measured;
use pat_solve_bounds::{Index, lower_bound};
use pat_solve_elimination::{RoundError, assigned};
use std::alloc::{AllocError, Global};

/// The values of ascending variables by both rounds; `None` exactly where a pattern that is made on the way is too large, a lower
/// bound among them.
pub fn round_values(
    alloc: Global,
    index: &Index,
    problem: &Problem,
    variables: &[u32],
) -> Result<Option<Sequence<Measured>>, AllocError>
    requires index { IsIndexOf problem.now index.now }
    requires ascending { IsAscending variables.now }
    requires each { (j : ℕ) → j < length variables.now → get_or variables.now j 0 ≤ length problem.now.vars }
    ensures { (cs : List GhostConstraint) → map (lowers_by cs) variables.now
        ≡ map (lower_of (sides_list problem.now.constraints)) variables.now → IfOk result (RoundsGive cs variables.now) }
{
    let lowers = lower_bounds(alloc, index, problem, variables)?;
    match lowers {
        Some(own) => rounds_by(alloc, variables, own),
        None => Ok(None),
    }
}

/// The values by lower bounds that are within the limits.
fn rounds_by(
    alloc: Global,
    variables: &[u32],
    lowers: Sequence<Measured>,
) -> Result<Option<Sequence<Measured>>, AllocError>
    requires ascending { IsAscending variables.now }
    requires as_many { length variables.now ≡ length lowers }
    ensures { (cs : List GhostConstraint) → map (lowers_by cs) variables.now ≡ measured_list lowers
        → IfOk result (RoundsGive cs variables.now) }
{
    match assigned(alloc, variables, lowers.as_slice()) {
        Ok(values) => Ok(Some(values)),
        Err(RoundError::TooLarge) => Ok(None),
        Err(RoundError::NoMemory) => Err(AllocError),
    }
}

/// The lower bounds of the variables in order; `None` exactly where one of them is too large.
fn lower_bounds(
    alloc: Global,
    index: &Index,
    problem: &Problem,
    variables: &[u32],
) -> Result<Option<Sequence<Measured>>, AllocError>
    requires index { IsIndexOf problem.now index.now }
    requires each { (j : ℕ) → j < length variables.now → get_or variables.now j 0 ≤ length problem.now.vars }
    ensures { IfOk result (LowersAre (map (lower_of (sides_list problem.now.constraints)) variables.now)) }
{
    let mut lowers = Sequence::new(alloc);
    for variable in variables {
        let lower = lower_bound(alloc, index, problem, *variable)?;
        match lower {
            Some(own) => lowers.push(own)?,
            None => return Ok(None),
        }
    }
    Ok(Some(lowers))
}
