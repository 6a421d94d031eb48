// Closed forms of the sides of inclusions.
ghost use Rattle.std.specs.Prelude.{◌≡◌, ℕ, List, Some, slice_get, IsTrue, IfOk, IfSome};
ghost use Rattle.pat_words_spec.specs.Patterns.{subst_of};
ghost use Rattle.pat_inclusion_spec.specs.Values.{pattern_of, is_formed};
ghost use Rattle.pat_inclusion_spec.specs.LinearSets.{LinearSet as GhostSet};
ghost use Rattle.pat_inclusion_spec.specs.ClosedForms.{closed_form};
ghost use Rattle.pat_linear.specs.Views.{sets_view};
ghost use Rattle.pat_patterns.specs.Views.{pattern_view};
ghost use Rattle.pat_solve_derivation.specs.certificates.ClosedValues.{closed_view, AreClosed};
ghost use Rattle.pat_solve_derivation.specs.certificates.Making.{scope_in, IsSolved};

use crate::certificates::context::Solved;
use pat_certificate_checks::form_of;
use pat_linear::LinearSet;
use pat_patterns::Pattern;
use pat_sequences::Sequence;
use std::alloc::{AllocError, Global};

/// The closed form of a side. The solver has one for each of its own sides, whose values are measured; here they are a derivation's.
#[derive(Drop)]
pub enum ClosedForm<'a> {
    /// That of a variable's value.
    Kept(&'a [LinearSet]),
    /// One that is made for the side.
    Made(Sequence<LinearSet>),
}

impl<'a> ClosedForm<'a> {
    /// Its sets.
    pub fn as_slice(&self) -> &[LinearSet]
        ensures { sets_view result.now ≡ closed_view self.now }
    {
        match self {
            ClosedForm::Kept(sets) => sets,
            ClosedForm::Made(sets) => sets.as_slice(),
        }
    }
}

fn kept_at<'a>(closed: &'a [Option<Sequence<LinearSet>>], number: u32) -> Option<&'a [LinearSet]>
    ensures { IfSome result (λ sets. slice_get closed.now number ≡ Some (Some sets.now)) }
{
    match closed.get(number as usize) {
        None => None,
        Some(form) => match form {
            None => None,
            Some(sets) => Some(sets.as_slice()),
        },
    }
}

/// The closed form of a side that is a variable, if it is kept.
fn kept_form<'a>(
    solved: &Solved,
    closed: &'a [Option<Sequence<LinearSet>>],
    side: &Pattern,
) -> Option<&'a [LinearSet]>
    requires { AreClosed (scope_in solved.now) closed.now }
    ensures { IfSome result (λ sets. (i : ℕ) → IsTrue (is_formed (scope_in solved.now) i (pattern_view side.now))
        → closed_form ((scope_in solved.now).tags i) (subst_of (pattern_of (scope_in solved.now)) (pattern_view side.now))
        ≡ Some (sets_view sets.now)) }
{
    match side {
        Pattern::Var(number) => kept_at(closed, *number),
        _ => None,
    }
}

/// The closed form of a side with its variables replaced by their values, where it isn't too large. The side is a pattern of the
/// interface.
pub fn side_form<'a>(
    alloc: Global,
    solved: &Solved,
    closed: &'a [Option<Sequence<LinearSet>>],
    interface: u32,
    side: &Pattern,
) -> Result<ClosedForm<'a>, AllocError>
    requires solved { IsSolved solved.now }
    requires closed { AreClosed (scope_in solved.now) closed.now }
    requires formed { IsTrue (is_formed (scope_in solved.now) interface (pattern_view side.now)) }
    requires small { (sets : List GhostSet) × (closed_form ((scope_in solved.now).tags interface)
        (subst_of (pattern_of (scope_in solved.now)) (pattern_view side.now)) ≡ Some sets) }
    ensures { IfOk result (λ form. closed_form ((scope_in solved.now).tags interface)
        (subst_of (pattern_of (scope_in solved.now)) (pattern_view side.now)) ≡ Some (closed_view form)) }
{
    match kept_form(solved, closed, side) {
        Some(sets) => Ok(ClosedForm::Kept(sets)),
        None => match form_of(alloc, solved.program, solved.derivation, interface, side)? {
            Some(sets) => Ok(ClosedForm::Made(sets)),
            // It isn't too large.
            None => unreachable!(),
        },
    }
}
