// Closed forms of values, each made once where it is asked for.
ghost use Rattle.std.specs.Prelude.{◌<◌, length, IsTrue, IfOk, OnOk};
ghost use Rattle.pat_semantics_spec.specs.WellFormed.{WellFormed};
ghost use Rattle.pat_inclusion_spec.specs.Values.{Scope, values_fit};
ghost use Rattle.pat_derivation_spec.specs.Derivations.{scope_of};
ghost use Rattle.pat_core.specs.Views.{program_view};
ghost use Rattle.pat_derivations.specs.Views.{derivation_view};
ghost use Rattle.pat_solve_derivation.specs.certificates.ClosedValues.{IsClosedAt, AreClosed};
ghost use Rattle.pat_solve_derivation.specs.certificates.Making.{scope_in, IsSolved};

use crate::certificates::context::Solved;
use pat_certificate_checks::form_of;
use pat_certificate_values::var_of;
use pat_core::Program;
use pat_derivations::{Derivation, VarValue};
use pat_linear::LinearSet;
use pat_patterns::Pattern;
use pat_sequences::{Sequence, let_go};
use std::alloc::{AllocError, Global};

/// The closed form of a variable's value, where that is a pattern and the closed form isn't too large.
fn closed_value(
    alloc: Global,
    program: &Program,
    derivation: &Derivation,
    number: u32,
) -> Result<Option<Sequence<LinearSet>>, AllocError>
    requires well { WellFormed (program_view program.now) }
    requires values { IsTrue (values_fit (scope_of (program_view program.now) (derivation_view derivation.now))) }
    ensures { IfOk result (IsClosedAt (scope_of (program_view program.now) (derivation_view derivation.now)) number) }
{
    match var_of(derivation.vars.as_slice(), number) {
        None => Ok(None),
        Some((interface, value)) => match value {
            VarValue::Pattern(_) => form_of(
                alloc,
                program,
                derivation,
                *interface,
                &Pattern::Var(number),
            ),
            VarValue::Grid { k: _, points: _ } => Ok(None),
        },
    }
}

/// By the numbers of variables, from 0: closed forms of values, of which none is made yet.
pub fn unmade_forms(
    alloc: Global,
    derivation: &Derivation,
) -> Result<Sequence<Option<Sequence<LinearSet>>>, AllocError>
    ensures { IfOk result (λ closed. (s : Scope) → AreClosed s closed) }
{
    let mut closed = Sequence::new(alloc);
    closed.push(None)?;
    for _ in 0..derivation.vars.len() {
        closed.push(None)?;
    }
    Ok(closed)
}

/// Whether there is room for the closed form of the variable's value, and it isn't made yet.
fn is_unmade(closed: &[Option<Sequence<LinearSet>>], number: u32) -> bool
    ensures { IsTrue result → number < length closed.now }
{
    let place = number as usize;
    if place < closed.len() {
        closed[place].is_none()
    } else {
        false
    }
}

/// Makes the closed form of the variable's value, if it isn't made yet.
fn keep_value(
    alloc: Global,
    solved: &Solved,
    closed: &mut Sequence<Option<Sequence<LinearSet>>>,
    number: u32,
) -> Result<(), AllocError>
    requires solved { IsSolved solved.now }
    requires closed { AreClosed (scope_in solved.now) closed.old }
    ensures { OnOk result (AreClosed (scope_in solved.now) closed.new) }
{
    if !is_unmade(closed.as_slice(), number) {
        return Ok(());
    }
    let form = closed_value(alloc, solved.program, solved.derivation, number)?;
    let_go(closed.replace(number as usize, form));
    Ok(())
}

/// Makes the closed form of a side that is a variable, if it isn't made yet.
pub fn keep_form(
    alloc: Global,
    solved: &Solved,
    closed: &mut Sequence<Option<Sequence<LinearSet>>>,
    side: &Pattern,
) -> Result<(), AllocError>
    requires solved { IsSolved solved.now }
    requires closed { AreClosed (scope_in solved.now) closed.old }
    ensures { OnOk result (AreClosed (scope_in solved.now) closed.new) }
{
    match side {
        Pattern::Var(number) => keep_value(alloc, solved, closed, *number),
        _ => Ok(()),
    }
}
