// Both rounds.
ghost use Rattle.std.specs.Prelude.{◌≡◌, ◌&&◌, [], List, map, length};
ghost use Rattle.pat_infer_spec.specs.Constraints.{Constraint};
ghost use Rattle.pat_solve_spec.specs.LowerBounds.{lowers as lowers_by};
ghost use Rattle.pat_solve_spec.specs.Assignments.{second_round as second_round_of, assigned as assigned_by};
ghost use Rattle.pat_solve_bounded.specs.Views.{measured_list};
ghost use Rattle.pat_solve_bounded.specs.replacing.Ascending.{IsAscending, paired};
ghost use Rattle.pat_solve_elimination.specs.Rounds.{first_from, first_fits, second_fits};
ghost use Rattle.pat_solve_elimination.specs.assignment.Results.{GivesValues, rounds_fit};

use crate::RoundError;
use crate::assignment::first::first_round;
use crate::assignment::second::second_round;
use pat_sequences::Sequence;
use pat_solve_bounded::Measured;
use std::alloc::Global;

/// The closed-form values of ascending variables by their lower bounds. `TooLarge` comes exactly where a pattern that is made on the
/// way has more than 65,536 nodes or 16,384 levels; the lower bounds themselves are within the limits.
pub fn assigned(
    alloc: Global,
    variables: &[u32],
    lowers: &[Measured],
) -> Result<Sequence<Measured>, RoundError>
    requires ascending { IsAscending variables.now }
    requires as_many { length variables.now ≡ length lowers.now }
    ensures { (cs : List Constraint) → map (lowers_by cs) variables.now ≡ measured_list lowers.now
        → GivesValues variables.now result (rounds_fit cs variables.now) (assigned_by cs variables.now) }
{
    both_rounds(alloc, variables, lowers)
}

/// So along the lower bounds.
fn both_rounds(
    alloc: Global,
    variables: &[u32],
    lowers: &[Measured],
) -> Result<Sequence<Measured>, RoundError>
    requires ascending { IsAscending variables.now }
    requires as_many { length variables.now ≡ length lowers.now }
    ensures { let first = first_from [] (paired variables.now (measured_list lowers.now)) in
        GivesValues variables.now result (first_fits [] (paired variables.now (measured_list lowers.now)) && second_fits first)
        (second_round_of first) }
{
    let values = first_round(alloc, variables, lowers)?;
    second_round(alloc, variables, values)
}
