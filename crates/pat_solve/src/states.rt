// What is known of the interfaces up to one of them.
ghost use Rattle.std.specs.Prelude.{◌≡◌, ◌-◌, Some, length, map, slice_set, IfOk};
ghost use Rattle.pat_derivations.specs.Views.{value_view, var_view, vars_view};
ghost use Rattle.pat_solve.specs.Steps.{IsBegun, TookIn, IsTooLargeBy, SolvesMore, put_lines, MeetsUnshown, IsEarlier, Finishes, IsErrorOf};

use crate::interface::{InterfaceForm, Unshown};
use pat_derivations::VarValue;
use pat_infer_problems::Problem;
use pat_patterns::Pattern;
use pat_sequences::{Sequence, let_go};
use pat_solve_bounds::{Solution, SolveError};
use std::alloc::{AllocError, Global};

/// What is known of the first interfaces: their forms, the values of their variables, 0 for each other one, and the first constraint
/// that isn't shown. The forms and the values are all known only where there is no such constraint.
#[derive(Drop)]
pub struct Progress {
    pub bounds: Sequence<Option<u32>>,
    pub values: Sequence<(u32, VarValue)>,
    pub first: Option<Unshown>,
}

/// What is known of no interface.
pub fn begun(alloc: Global, problem: &Problem) -> Result<Progress, AllocError>
    ensures { IfOk result (λ s. IsBegun (length problem.now.vars) s) }
{
    let mut values = Sequence::new(alloc);
    for declared in problem.vars.as_slice() {
        values.push((declared.interface, VarValue::Pattern(Pattern::Zero)))?;
    }
    Ok(Progress {
        bounds: Sequence::new(alloc),
        values,
        first: None,
    })
}

/// What is known with one more interface, whose variables these are.
pub fn took(
    state: Progress,
    interface: u32,
    variables: &[u32],
    form: InterfaceForm,
) -> Result<Progress, SolveError>
    ensures { TookIn interface variables.now state form result }
{
    match form {
        InterfaceForm::Solved(bound, values) => solved(state, interface, variables, bound, values),
        InterfaceForm::TooLarge => too_large(state, interface),
        InterfaceForm::Unsolved(unshown) => Ok(met(state, unshown)),
    }
}

fn too_large(_state: Progress, interface: u32) -> Result<Progress, SolveError>
    ensures { IsTooLargeBy interface result }
{
    Err(SolveError::TooLarge { interface })
}

fn solved(
    state: Progress,
    interface: u32,
    variables: &[u32],
    bound: Option<u32>,
    own: Sequence<VarValue>,
) -> Result<Progress, SolveError>
    ensures { SolvesMore interface variables.now state bound own result }
{
    let Progress {
        bounds,
        values,
        first,
    } = state;
    let mut bounds = bounds;
    let mut values = values;
    bounds.push(bound)?;
    put_values(&mut values, interface, variables, own);
    Ok(Progress {
        bounds,
        values,
        first,
    })
}

/// Puts the values of the variables in their places.
fn put_values(
    values: &mut Sequence<(u32, VarValue)>,
    interface: u32,
    variables: &[u32],
    own: Sequence<VarValue>,
)
    ensures { length own ≡ length variables.now
        → vars_view values.new ≡ put_lines interface variables.now (map value_view own) (vars_view values.old) }
{
    let mut own = own;
    while let Some(value) = own.pop() {
        let place = own.len();
        if place < variables.len() {
            put_value(values, interface, variables[place], value);
        }
    }
}

/// Puts the value of a variable in its place, if there is one.
fn put_value(values: &mut Sequence<(u32, VarValue)>, interface: u32, variable: u32, value: VarValue)
    ensures { vars_view values.new ≡ slice_set (vars_view values.old) (variable - 1) (var_view (interface, value)) }
{
    let place = (variable as usize).saturating_sub(1);
    if place < values.len() {
        let_go(values.replace(place, (interface, value)));
    }
}

/// With a constraint that isn't shown.
fn met(state: Progress, unshown: Unshown) -> Progress
    ensures { MeetsUnshown state unshown result }
{
    let Progress {
        bounds,
        values,
        first: before,
    } = state;
    Progress {
        bounds,
        values,
        first: earlier(before, unshown),
    }
}

/// The first of them.
fn earlier(before: Option<Unshown>, unshown: Unshown) -> Option<Unshown>
    ensures { IsEarlier before unshown result }
{
    match before {
        None => Some(unshown),
        Some(other) => {
            if other.constraint < unshown.constraint {
                keep(other, unshown)
            } else {
                keep(unshown, other)
            }
        }
    }
}

fn keep(kept: Unshown, _gone: Unshown) -> Option<Unshown>
    ensures { result ≡ Some kept }
{
    Some(kept)
}

/// The answer, where all interfaces are known.
pub fn finished(state: Progress) -> Result<Solution, SolveError>
    ensures { Finishes state result }
{
    let Progress {
        bounds,
        values,
        first,
    } = state;
    match first {
        None => Ok(Solution { bounds, values }),
        Some(unshown) => Err(refused(unshown, (bounds, values))),
    }
}

/// The error that says so.
fn refused<T: Drop>(unshown: Unshown, _gone: T) -> SolveError
    ensures { IsErrorOf unshown result }
{
    let Unshown {
        constraint,
        refutation,
    } = unshown;
    if constraint > u32::MAX as usize {
        return SolveError::NoMemory;
    }
    match refutation {
        Some(refutation) => SolveError::Refuted {
            constraint: constraint as u32,
            refutation,
        },
        None => SolveError::Undecided {
            constraint: constraint as u32,
        },
    }
}
