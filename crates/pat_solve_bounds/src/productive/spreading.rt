// Variables that have a derivable word, found one after another from the constraints.
ghost use Rattle.std.specs.Prelude.{◌≡◌, ◌<◌, ◌+◌, ◌∷◌, ◌≤◌, ◌&&◌, ◌↔◌, ℕ, not, nat_lt, [], length, set, get_or, slice_get, replicate, true, false, IfOk, OnOk, IsTrue};
ghost use Rattle.pat_words_spec.specs.Words.{Word};
ghost use Rattle.pat_inclusion_spec.specs.Under.{inhabited_under};
ghost use Rattle.pat_inclusion_spec.specs.bounds.Trees.{derivable};
ghost use Rattle.pat_inclusion_spec.specs.bounds.Assignments.{VarRight, lower_of};
ghost use Rattle.pat_patterns.specs.Views.{pattern_view};
ghost use Rattle.pat_solve_bounds.specs.productive.Flags.{flag_of};
ghost use Rattle.pat_solve_bounds.specs.lower_bounds.Sides.{sides_view, sides_list};
ghost use Rattle.pat_solve_bounds.specs.productive.Rights.{RightsBelow};
ghost use Rattle.pat_solve_bounds.specs.productive.Spreading.{IsSpread, IsLookedAt, LookedIf, numbers_below, weight};

use crate::productive::testing::{flag, has_word};
use crate::productive::users::users_of;
use pat_inclusion_laws::derivable_laws;
use pat_infer_problems::Constraint;
use pat_patterns::Pattern;
use pat_sequences::{Sequence, Stack};
use pat_types::Right;
use std::alloc::{AllocError, Global};

/// Of each of so many variables, numbered from 0, whether it has a derivable word. Each constraint is looked at once, and again
/// only where a variable that it names was found to have one.
pub fn usable_variables(
    alloc: Global,
    constraints: &[Constraint],
    count: usize,
) -> Result<Sequence<bool>, AllocError>
    requires { RightsBelow count (sides_list constraints.now) }
    ensures { IfOk result (λ flags. (k : ℕ) → IsTrue (flag_of flags k)
        ↔ ((w : Word) × derivable (lower_of (sides_list constraints.now)) k w)) }
{
    let users = users_of(alloc, constraints, count)?;
    let mut flags = no_flags(alloc, count)?;
    let mut waiting = Stack::new(alloc);
    let all = all_numbers(alloc, constraints.len())?;
    look_at_each(constraints, all.as_slice(), &mut flags, &mut waiting)?;
    while let Some(variable) = waiting.pop() {
        let numbers = users_at(users.as_slice(), variable);
        look_at_each(constraints, numbers, &mut flags, &mut waiting)?;
    }
    Ok(Sequence::from_vec(flags))
}

/// So many flags, none of which is set.
fn no_flags(alloc: Global, count: usize) -> Result<Vec<bool>, AllocError>
    ensures { IfOk result (λ flags. flags.items ≡ replicate count false) }
{
    vec![in alloc; false; count]
}

/// The numbers below this one.
fn all_numbers(alloc: Global, count: usize) -> Result<Sequence<usize>, AllocError>
    ensures { IfOk result (λ numbers. numbers ≡ numbers_below count) }
{
    let mut numbers = Sequence::new(alloc);
    for number in 0..count {
        numbers.push(number)?;
    }
    Ok(numbers)
}

/// The constraints that name the variable.
fn users_at<'a>(users: &'a [Sequence<usize>], variable: u32) -> &'a [usize]
    ensures { result.now ≡ get_or users.now variable [] }
{
    let place = variable as usize;
    if place < users.len() {
        return users[place].as_slice();
    }
    &[]
}

/// Looks at the constraints with these numbers, one after another.
fn look_at_each(
    constraints: &[Constraint],
    numbers: &[usize],
    flags: &mut [bool],
    waiting: &mut Stack<u32>,
) -> Result<(), AllocError>
    requires { IsSpread (sides_list constraints.now) numbers.now flags.old waiting.old }
    ensures spread { OnOk result (IsSpread (sides_list constraints.now) [] flags.new waiting.new) }
    ensures weight { OnOk result (weight flags.new waiting.new ≤ weight flags.old waiting.old) }
{
    derivable_laws();
    for number in numbers {
        look_at(constraints, *number, flags, waiting)?;
    }
    Ok(())
}

/// Looks at the constraint with the number, if there is one.
fn look_at(
    constraints: &[Constraint],
    number: usize,
    flags: &mut [bool],
    waiting: &mut Stack<u32>,
) -> Result<(), AllocError>
    ensures { OnOk result (LookedIf (slice_get (sides_list constraints.now) number) flags.old waiting.old flags.new waiting.new) }
{
    match constraints.get(number) {
        None => Ok(()),
        Some(constraint) => look(constraint, flags, waiting),
    }
}

/// Looks at the constraint.
fn look(
    constraint: &Constraint,
    flags: &mut [bool],
    waiting: &mut Stack<u32>,
) -> Result<(), AllocError>
    ensures { OnOk result (IsLookedAt (sides_view constraint.now) flags.old waiting.old flags.new waiting.new) }
{
    match &constraint.right {
        Right::Pattern(_) => Ok(()),
        Right::Var(variable) => look_for(*variable, &constraint.left, flags, waiting),
    }
}

/// Looks at a constraint with a variable on the right.
fn look_for(
    variable: u32,
    left: &Pattern,
    flags: &mut [bool],
    waiting: &mut Stack<u32>,
) -> Result<(), AllocError>
    ensures { OnOk result (IsLookedAt (record {
      left = pattern_view left.now;
      right
          = VarRight variable;
    }) flags.old waiting.old flags.new waiting.new) }
{
    if is_found(variable, left, flags) {
        return mark(variable, flags, waiting);
    }
    Ok(())
}

/// Whether a word is found for the variable that had none.
fn is_found(variable: u32, left: &Pattern, flags: &[bool]) -> bool
    ensures { result ≡ (nat_lt variable (length flags.now)
        && (not (flag_of flags.now variable) && inhabited_under (flag_of flags.now) (pattern_view left.now))) }
{
    (variable as usize) < flags.len() && (!flag(flags, variable as usize) && has_word(flags, left))
}

/// The variable has a word from now on, and waits.
fn mark(variable: u32, flags: &mut [bool], waiting: &mut Stack<u32>) -> Result<(), AllocError>
    requires { variable < length flags.old }
    ensures flags { OnOk result (flags.new ≡ set flags.old variable true) }
    ensures waiting { OnOk result (waiting.new ≡ variable ∷ waiting.old) }
{
    waiting.push(variable)?;
    flags[variable as usize] = true;
    Ok(())
}
