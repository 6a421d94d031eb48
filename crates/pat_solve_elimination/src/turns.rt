// Variables replaced one after another.
ghost use Rattle.std.specs.Prelude.{◌≡◌, ◌<◌, ◌≤◌, ℕ, [], true, false, length, get_or};
ghost use Rattle.std.specs.List.{AllByRecursion};
ghost use Rattle.pat_words_spec.specs.Patterns.{Zero, subst_of};
ghost use Rattle.pat_inclusion_spec.specs.ClosedForms.{is_small};
ghost use Rattle.pat_solve_spec.specs.Assignments.{Values, put_one as put_one_of, put_in_turn};
ghost use Rattle.pat_solve_bounded.specs.Views.{measured_view, measured_list};
ghost use Rattle.pat_solve_bounded.specs.replacing.Ascending.{IsAscending, paired};
ghost use Rattle.pat_solve_bounded.specs.replacing.Replacing.{listed_in};
ghost use Rattle.pat_solve_bounded.specs.Variables.{has_var};
ghost use Rattle.pat_solve_elimination.specs.Rounds.{IsRebuilt, turn_fits};
ghost use Rattle.pat_solve_elimination.specs.Growing.{MayGrow};
ghost use Rattle.pat_solve_elimination.specs.Results.{Gives};

use crate::error::RoundError;
use crate::growing::{has_none, may_grow};
use crate::occurring::next_place;
use crate::replacing::{kept, put_one};
use crate::resolving::resolved;
use pat_solve_bounded::{Measured, Replacement, replaced};
use std::alloc::Global;

/// The pattern in which ascending variables are replaced by their values, one after another: a value may have variables that are
/// replaced after it. Where that is the same, they are replaced all at once, by their values or by values resolved from behind.
pub fn in_turn(
    alloc: Global,
    variables: &[u32],
    values: &[Measured],
    f: &Measured,
) -> Result<Measured, RoundError>
    requires ascending { IsAscending variables.now }
    requires as_many { length variables.now ≡ length values.now }
    requires rebuilt { AllByRecursion IsRebuilt (measured_list values.now) }
    ensures { let vs = paired variables.now (measured_list values.now) in
        Gives result (turn_fits vs (measured_view f.now)) (put_in_turn vs (measured_view f.now)) }
{
    if may_grow(alloc, variables, values, f)? {
        return at_once(alloc, variables, values, f);
    }
    match resolved(alloc, variables, values, f)? {
        Some(settled) => by_settled(alloc, variables, settled.as_slice(), f),
        None => {
            let copy = f.copy()?;
            turns(alloc, variables, values, copy)
        }
    }
}

/// The pattern in which the variables are replaced all at once by values that were resolved.
fn by_settled(
    alloc: Global,
    variables: &[u32],
    settled: &[Measured],
    f: &Measured,
) -> Result<Measured, RoundError>
    requires ascending { IsAscending variables.now }
    requires as_many { length variables.now ≡ length settled.now }
    ensures { (vs : Values) → (vs ≡ [] → ⊥) → turn_fits vs (measured_view f.now) ≡ true
        → subst_of (listed_in (paired variables.now (measured_list settled.now))) (measured_view f.now)
        ≡ put_in_turn vs (measured_view f.now) → Gives result (turn_fits vs (measured_view f.now)) (put_in_turn vs (measured_view f.now)) }
{
    let part = replaced(alloc, &f.pattern, &Replacement::Listed(variables, settled))?;
    kept(part)
}

/// So in a pattern that is as the simplifying forms make it: where none of the variables occurs, it stays.
pub fn in_turn_rebuilt(
    alloc: Global,
    variables: &[u32],
    values: &[Measured],
    f: &Measured,
) -> Result<Measured, RoundError>
    requires ascending { IsAscending variables.now }
    requires as_many { length variables.now ≡ length values.now }
    requires rebuilt { AllByRecursion IsRebuilt (measured_list values.now) }
    requires own { IsRebuilt (measured_view f.now) }
    ensures { let vs = paired variables.now (measured_list values.now) in
        Gives result (turn_fits vs (measured_view f.now)) (put_in_turn vs (measured_view f.now)) }
{
    if has_none(f, variables) {
        return Ok(f.copy()?);
    }
    in_turn(alloc, variables, values, f)
}

/// The pattern in which the variables are replaced all at once, where they may be.
fn at_once(
    alloc: Global,
    variables: &[u32],
    values: &[Measured],
    f: &Measured,
) -> Result<Measured, RoundError>
    requires ascending { IsAscending variables.now }
    requires as_many { length variables.now ≡ length values.now }
    requires rebuilt { AllByRecursion IsRebuilt (measured_list values.now) }
    requires may { MayGrow (paired variables.now (measured_list values.now)) (measured_view f.now) }
    ensures { let vs = paired variables.now (measured_list values.now) in
        Gives result (turn_fits vs (measured_view f.now)) (put_in_turn vs (measured_view f.now)) }
{
    let part = replaced(alloc, &f.pattern, &Replacement::Listed(variables, values))?;
    kept(part)
}

/// One after another in a pattern of one's own. Where a variable doesn't occur, it is passed over.
fn turns(
    alloc: Global,
    variables: &[u32],
    values: &[Measured],
    f: Measured,
) -> Result<Measured, RoundError>
    requires ascending { IsAscending variables.now }
    requires as_many { length variables.now ≡ length values.now }
    requires rebuilt { AllByRecursion IsRebuilt (measured_list values.now) }
    ensures { let vs = paired variables.now (measured_list values.now) in
        Gives result (turn_fits vs (measured_view f)) (put_in_turn vs (measured_view f)) }
{
    let mut made = f;
    let mut place = 0;
    while place < variables.len() {
        made = turn(alloc, variables, values, place, &made)?;
        place = next_place(alloc, &made.pattern, variables, place + 1)?;
    }
    Ok(made)
}

/// The pattern in which the variable at the place is replaced by the value there.
fn turn(
    alloc: Global,
    variables: &[u32],
    values: &[Measured],
    place: usize,
    made: &Measured,
) -> Result<Measured, RoundError>
    requires as_many { length variables.now ≡ length values.now }
    requires place { place < length variables.now }
    ensures { let next = put_one_of (get_or variables.now place 0) (get_or (measured_list values.now) place Zero)
        (measured_view made.now) in Gives result (is_small next) next }
{
    let value = &values[place];
    put_one(alloc, variables[place], value, made)
}
