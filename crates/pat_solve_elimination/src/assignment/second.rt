// The second round: values put in again, from the last variable on.
ghost use Rattle.std.specs.Prelude.{◌≡◌, ◌<◌, ◌+◌, length, drop, get_or, slice_set};
ghost use Rattle.std.specs.List.{AllByRecursion};
ghost use Rattle.pat_solve_spec.specs.Assignments.{second_round as second_round_of, put_in_turn};
ghost use Rattle.pat_solve_bounded.specs.Views.{measured_list};
ghost use Rattle.pat_solve_bounded.specs.replacing.Ascending.{IsAscending, paired};
ghost use Rattle.pat_solve_elimination.specs.Rounds.{IsRebuilt, second_fits, turn_fits};
ghost use Rattle.pat_words_spec.specs.Patterns.{Zero};
ghost use Rattle.pat_solve_elimination.specs.Results.{Gives};
ghost use Rattle.pat_solve_elimination.specs.assignment.Results.{GivesValues};

use crate::RoundError;
use crate::turns::in_turn_rebuilt;
use pat_sequences::Sequence;
use pat_solve_bounded::Measured;
use std::alloc::Global;

/// The values, in each of which the later variables are replaced, the last one first.
pub fn second_round(
    alloc: Global,
    variables: &[u32],
    values: Sequence<Measured>,
) -> Result<Sequence<Measured>, RoundError>
    requires ascending { IsAscending variables.now }
    requires as_many { length values ≡ length variables.now }
    requires rebuilt { AllByRecursion IsRebuilt (measured_list values) }
    ensures { let vs = paired variables.now (measured_list values) in
        GivesValues variables.now result (second_fits vs) (second_round_of vs) }
{
    let mut values = values;
    let mut place = values.len();
    while place > 0 {
        place -= 1;
        let value = put_later(alloc, variables, values.as_slice(), place)?;
        put(&mut values, place, value);
    }
    Ok(values)
}

/// The value at the place, in which the later variables are replaced.
fn put_later(
    alloc: Global,
    variables: &[u32],
    values: &[Measured],
    place: usize,
) -> Result<Measured, RoundError>
    requires ascending { IsAscending variables.now }
    requires as_many { length values.now ≡ length variables.now }
    requires place { place < length values.now }
    requires rebuilt { AllByRecursion IsRebuilt (measured_list values.now) }
    ensures { let later = paired (drop (place + 1) variables.now) (drop (place + 1) (measured_list values.now)) in let own
        = get_or (measured_list values.now) place Zero in Gives result (turn_fits later own) (put_in_turn later own) }
{
    let own = &values[place];
    in_turn_rebuilt(alloc, &variables[place + 1..], &values[place + 1..], own)
}

/// Puts the value at the place.
fn put(values: &mut Sequence<Measured>, place: usize, value: Measured)
    requires { place < length values.old }
    ensures { values.new ≡ slice_set values.old place value }
{
    let _ = values.replace(place, value);
}
