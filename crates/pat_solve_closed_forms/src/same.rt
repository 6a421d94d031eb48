// Sides of a constraint that are the same once their variables are replaced.
ghost use Rattle.std.specs.Prelude.{◌≡◌, IfOk};
ghost use Rattle.pat_words_spec.specs.Patterns.{subst_of};
ghost use Rattle.pat_patterns.specs.Views.{pattern_view};
ghost use Rattle.pat_types.specs.Views.{right_view};
ghost use Rattle.pat_solve_bounded.specs.Limits.{within};
ghost use Rattle.pat_solve_bounded.specs.Views.{part_view, limited_view};
ghost use Rattle.pat_solve_bounded.specs.replacing.Replacing.{replaced_by, IsReplacement};
ghost use Rattle.pat_solve_closed_forms.specs.Sides.{right_pattern};
ghost use Rattle.pat_solve_closed_forms.specs.Comparisons.{Compares, ComparesParts};
ghost use Rattle.pat_solve_closed_forms.specs.Forms.{values_by, IsAssignment};

use crate::bounds::are_same_with_few_sets;
use crate::forms::Assignment;
use pat_patterns::Pattern;
use pat_solve_bounded::{Part, Replacement, replaced};
use pat_types::Right;
use std::alloc::{AllocError, Global};

/// What is known of the sides of a constraint once their variables are replaced.
#[derive(Clone, Copy)]
pub enum Comparison {
    /// Nothing.
    Apart,
    /// They are the same, so the left one is covered by the right one if they have a closed form.
    Same,
    /// They are the same and have a closed form.
    SameWithForm,
}

/// Compares the sides. Where they are the same, no cover has to be looked for, and mostly no closed form either.
pub fn compare(
    alloc: Global,
    left: &Pattern,
    right: &Right,
    by: &Assignment,
) -> Result<Comparison, AllocError>
    requires { IsAssignment by.now }
    ensures { IfOk result (Compares (subst_of (values_by by.now) (pattern_view left.now))
        (subst_of (values_by by.now) (right_pattern (right_view right.now)))) }
{
    let values = Replacement::All(by.variables, by.values);
    let left = replaced(alloc, left, &values)?;
    let right = right_part(alloc, right, &values)?;
    match (left, right) {
        (Some(left), Some(right)) => Ok(compare_parts(&left, &right)),
        _ => Ok(Comparison::Apart),
    }
}

/// The right side with its variables replaced, unless it is too large.
fn right_part<'a>(
    alloc: Global,
    side: &Right,
    values: &Replacement<'a>,
) -> Result<Option<Part<'a>>, AllocError>
    requires { IsReplacement values.now }
    ensures { IfOk result (λ part. limited_view part ≡ within (subst_of (replaced_by values.now) (right_pattern (right_view side.now)))) }
{
    match side {
        Right::Var(variable) => replaced(alloc, &Pattern::Var(*variable), values),
        Right::Pattern(pattern) => replaced(alloc, pattern, values),
    }
}

/// Compares the parts, which aren't too large.
fn compare_parts(left: &Part, right: &Part) -> Comparison
    ensures { ComparesParts (part_view left.now) (part_view right.now) result }
{
    let left = left.as_measured();
    let right = right.as_measured();
    if are_same_with_few_sets(&left.pattern, &right.pattern) {
        return Comparison::SameWithForm;
    }
    if left.pattern.is_same(&right.pattern) {
        Comparison::Same
    } else {
        Comparison::Apart
    }
}
