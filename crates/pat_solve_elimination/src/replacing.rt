// One variable replaced, and the elimination of one variable.
ghost use Rattle.std.specs.Prelude.{◌≡◌};
ghost use Rattle.pat_words_spec.specs.Patterns.{Pat, prod_of, star_of};
ghost use Rattle.pat_inclusion_spec.specs.ClosedForms.{is_small};
ghost use Rattle.pat_solve_spec.specs.Assignments.{put_one as put_one_of, solved_for, derivative as derivative_of};
ghost use Rattle.pat_solve_bounded.specs.Limits.{within};
ghost use Rattle.pat_solve_bounded.specs.Views.{measured_view, limited_view};
ghost use Rattle.pat_solve_elimination.specs.Rounds.{solving_fits};
ghost use Rattle.pat_solve_elimination.specs.Results.{Gives};

use crate::error::RoundError;
use pat_solve_bounded::{Measured, Part, Replacement, derivative, product, replaced, star};
use std::alloc::Global;

/// The pattern in which the variable is replaced by the value.
pub fn put_one(
    alloc: Global,
    variable: u32,
    value: &Measured,
    f: &Measured,
) -> Result<Measured, RoundError>
    ensures { let made = put_one_of variable (measured_view value.now) (measured_view f.now) in Gives result (is_small made) made }
{
    let part = replaced(alloc, &f.pattern, &Replacement::One(variable, value))?;
    kept(part)
}

/// The derivative of the pattern by the variable.
fn derived(alloc: Global, f: &Measured, variable: u32) -> Result<Measured, RoundError>
    ensures { let made = derivative_of variable (measured_view f.now) in Gives result (is_small made) made }
{
    let part = derivative(alloc, &f.pattern, variable)?;
    kept(part)
}

/// A part as a pattern of its own, unless it is too large.
pub fn kept(part: Option<Part>) -> Result<Measured, RoundError>
    ensures { (e : Pat) → limited_view part.entry ≡ within e → Gives result (is_small e) e }
{
    match part {
        Some(part) => Ok(part.into_measured()?),
        None => Err(RoundError::TooLarge),
    }
}

/// The product of the star of the slope with the base.
fn starred(alloc: Global, slope: Measured, base: Measured) -> Result<Measured, RoundError>
    ensures { let made = prod_of (star_of (measured_view slope)) (measured_view base) in Gives result (is_small made) made }
{
    let rounds = star(alloc, Some(Part::Made(slope)))?;
    let whole = product(alloc, rounds, Some(Part::Made(base)))?;
    kept(whole)
}

/// The least solution for the variable of "f lies in it".
pub fn solve_for(alloc: Global, variable: u32, f: &Measured) -> Result<Measured, RoundError>
    ensures { Gives result (solving_fits variable (measured_view f.now)) (solved_for variable (measured_view f.now)) }
{
    let nothing = Measured::zero();
    let base = put_one(alloc, variable, &nothing, f)?;
    let slope = derived(alloc, f, variable)?;
    let slope = put_one(alloc, variable, &base, &slope)?;
    starred(alloc, slope, base)
}
