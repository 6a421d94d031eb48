// The first round: variables eliminated one after another.
ghost use Rattle.std.specs.Prelude.{◌≡◌, ◌<◌, [], length, take, get_or, IfOk};
ghost use Rattle.std.specs.List.{AllByRecursion};
ghost use Rattle.pat_words_spec.specs.Patterns.{Zero};
ghost use Rattle.pat_solve_bounded.specs.Views.{measured_view, measured_list};
ghost use Rattle.pat_solve_bounded.specs.replacing.Ascending.{IsAscending, paired};
ghost use Rattle.pat_solve_elimination.specs.Rounds.{IsRebuilt, next_value, next_fits, first_from, first_fits};
ghost use Rattle.pat_solve_elimination.specs.Results.{Gives};
ghost use Rattle.pat_solve_elimination.specs.assignment.Results.{GivesValues};

use crate::RoundError;
use crate::replacing::solve_for;
use crate::turns::in_turn;
use pat_sequences::Sequence;
use pat_solve_bounded::Measured;
use std::alloc::Global;

/// The values of the variables by their lower bounds, each once those before it are eliminated: a value may have later variables.
pub fn first_round(
    alloc: Global,
    variables: &[u32],
    lowers: &[Measured],
) -> Result<Sequence<Measured>, RoundError>
    requires ascending { IsAscending variables.now }
    requires as_many { length variables.now ≡ length lowers.now }
    ensures values { let fs = paired variables.now (measured_list lowers.now) in
        GivesValues variables.now result (first_fits [] fs) (first_from [] fs) }
    ensures rebuilt { IfOk result (λ vs. AllByRecursion IsRebuilt (measured_list vs)) }
{
    let mut values = Sequence::new(alloc);
    let mut place = 0;
    while place < variables.len() {
        let value = next(alloc, variables, lowers, values.as_slice(), place)?;
        values.push(value)?;
        place += 1;
    }
    Ok(values)
}

/// The value of the variable at the place, by the values of those before it.
fn next(
    alloc: Global,
    variables: &[u32],
    lowers: &[Measured],
    values: &[Measured],
    place: usize,
) -> Result<Measured, RoundError>
    requires ascending { IsAscending variables.now }
    requires as_many { length variables.now ≡ length lowers.now }
    requires place { place < length variables.now }
    requires so_many { length values.now ≡ place }
    requires rebuilt { AllByRecursion IsRebuilt (measured_list values.now) }
    ensures { let done = paired (take place variables.now) (measured_list values.now) in let k = get_or variables.now place 0 in let f
        = get_or (measured_list lowers.now) place Zero in Gives result (next_fits done k f) (next_value done k f) }
{
    let lower = &lowers[place];
    eliminate(alloc, variables[place], &variables[..place], values, lower)
}

/// The value of the variable, once earlier ones are replaced in its lower bound.
fn eliminate(
    alloc: Global,
    variable: u32,
    earlier: &[u32],
    values: &[Measured],
    lower: &Measured,
) -> Result<Measured, RoundError>
    requires ascending { IsAscending earlier.now }
    requires as_many { length earlier.now ≡ length values.now }
    requires rebuilt { AllByRecursion IsRebuilt (measured_list values.now) }
    ensures { let done = paired earlier.now (measured_list values.now) in
        Gives result (next_fits done variable (measured_view lower.now)) (next_value done variable (measured_view lower.now)) }
{
    let f = in_turn(alloc, earlier, values, lower)?;
    solve_for(alloc, variable, &f)
}
