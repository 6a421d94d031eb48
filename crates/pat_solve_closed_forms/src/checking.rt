// Whether the constraints of an interface are directly covered, one after another.
ghost use Rattle.std.specs.Prelude.{◌≡◌, ◌<◌, ◌^◌, ℕ, Some, length, get_or, IfOk, OnOk, IsTrue};
ghost use Rattle.pat_words_spec.specs.Patterns.{Pat, subst_of};
ghost use Rattle.pat_words_spec.specs.Tags.{tags_below};
ghost use Rattle.pat_inclusion_spec.specs.Counts.{most_tags};
ghost use Rattle.pat_inclusion_spec.specs.ClosedForms.{closed_form};
ghost use Rattle.pat_linear.specs.Views.{sets_view};
ghost use Rattle.pat_patterns.specs.Views.{pattern_view};
ghost use Rattle.pat_types.specs.Views.{right_view};
ghost use Rattle.pat_solve_spec.specs.Assignments.{value_in};
ghost use Rattle.pat_solve_bounded.specs.Views.{measured_list};
ghost use Rattle.pat_solve_bounded.specs.replacing.Ascending.{IsAscending, paired};
ghost use Rattle.pat_solve_closed_forms.specs.Sides.{right_pattern, left_under, right_under};
ghost use Rattle.pat_solve_closed_forms.specs.Forms.{side_sets, values_by, IsAssignment, AreKept};
ghost use Rattle.pat_solve_closed_forms.specs.Comparisons.{Compares};
ghost use Rattle.pat_solve_closed_forms.specs.Findings.{Follows, Finds};

use crate::forms::{
    Assignment, KeptForm, SideForm, keep_left, keep_right, left_form, right_form, unmade_forms,
};
use crate::same::{Comparison, compare};
use pat_infer_problems::Constraint;
use pat_linear::LinearSet;
use pat_patterns::Pattern;
use pat_sequences::Sequence;
use pat_solve_bounded::Measured;
use pat_solve_elimination::is_covered;
use pat_types::Right;
use std::alloc::{AllocError, Global};

/// What is found of some constraints.
#[derive(Clone, Copy)]
pub enum Finding {
    /// Each is directly covered.
    Covered,
    /// All sides have closed forms, and the constraint with this number is the first that isn't directly covered.
    Uncovered(usize),
    /// A side has no closed form, since that is too large.
    TooLarge,
}

/// What is found of the constraints with these numbers under the values of ascending variables.
pub fn find(
    alloc: Global,
    constraints: &[Constraint],
    numbers: &[usize],
    variables: &[u32],
    values: &[Measured],
) -> Result<Finding, AllocError>
    requires ascending { IsAscending variables.now }
    requires as_many { length variables.now ≡ length values.now }
    requires values { (k : ℕ) → IsTrue (tags_below most_tags (value_in (paired variables.now (measured_list values.now)) k)) }
    requires numbers { (j : ℕ) → j < length numbers.now → get_or numbers.now j 0 < length constraints.now }
    requires lefts { (j : ℕ) → j < length numbers.now
        → IsTrue (tags_below most_tags (left_under (value_in (paired variables.now (measured_list values.now))) constraints.now
        (get_or numbers.now j 0))) }
    requires rights { (j : ℕ) → j < length numbers.now
        → IsTrue (tags_below most_tags (right_under (value_in (paired variables.now (measured_list values.now))) constraints.now
        (get_or numbers.now j 0))) }
    ensures { IfOk result (Finds (value_in (paired variables.now (measured_list values.now))) constraints.now numbers.now
        (length numbers.now)) }
{
    let by = Assignment { variables, values };
    let mut forms = unmade_forms(alloc, &by)?;
    find_by(alloc, constraints, numbers, &by, &mut forms)
}

/// So where some closed forms of values are made.
fn find_by(
    alloc: Global,
    constraints: &[Constraint],
    numbers: &[usize],
    by: &Assignment,
    forms: &mut Sequence<KeptForm>,
) -> Result<Finding, AllocError>
    requires by { IsAssignment by.now }
    requires forms { AreKept by.now forms.old }
    requires numbers { (j : ℕ) → j < length numbers.now → get_or numbers.now j 0 < length constraints.now }
    requires lefts { (j : ℕ) → j < length numbers.now
        → IsTrue (tags_below most_tags (left_under (values_by by.now) constraints.now (get_or numbers.now j 0))) }
    requires rights { (j : ℕ) → j < length numbers.now
        → IsTrue (tags_below most_tags (right_under (values_by by.now) constraints.now (get_or numbers.now j 0))) }
    ensures { IfOk result (Finds (values_by by.now) constraints.now numbers.now (length numbers.now)) }
{
    let mut found = Finding::Covered;
    for number in numbers {
        found = find_next(alloc, found, constraints, *number, by, forms)?;
    }
    Ok(found)
}

/// What is found with the constraint of this number besides.
fn find_next(
    alloc: Global,
    before: Finding,
    constraints: &[Constraint],
    number: usize,
    by: &Assignment,
    forms: &mut Sequence<KeptForm>,
) -> Result<Finding, AllocError>
    requires by { IsAssignment by.now }
    requires forms { AreKept by.now forms.old }
    requires number { number < length constraints.now }
    requires left { IsTrue (tags_below most_tags (left_under (values_by by.now) constraints.now number)) }
    requires right { IsTrue (tags_below most_tags (right_under (values_by by.now) constraints.now number)) }
    ensures found { IfOk result (Follows number (left_under (values_by by.now) constraints.now number)
        (right_under (values_by by.now) constraints.now number) before) }
    ensures forms { OnOk result (AreKept by.now forms.new) }
{
    let constraint = &constraints[number];
    find_one(alloc, before, number, constraint, by, forms)
}

/// The same by the constraint itself.
fn find_one(
    alloc: Global,
    before: Finding,
    number: usize,
    constraint: &Constraint,
    by: &Assignment,
    forms: &mut Sequence<KeptForm>,
) -> Result<Finding, AllocError>
    requires by { IsAssignment by.now }
    requires forms { AreKept by.now forms.old }
    requires left { IsTrue (tags_below most_tags (subst_of (values_by by.now) (pattern_view constraint.now.left))) }
    requires right { IsTrue (tags_below most_tags (subst_of (values_by by.now) (right_pattern (right_view constraint.now.right)))) }
    ensures found { IfOk result (Follows number (subst_of (values_by by.now) (pattern_view constraint.now.left))
        (subst_of (values_by by.now) (right_pattern (right_view constraint.now.right))) before) }
    ensures forms { OnOk result (AreKept by.now forms.new) }
{
    if let Finding::TooLarge = before {
        return Ok(Finding::TooLarge);
    }
    let compared = compare(alloc, &constraint.left, &constraint.right, by)?;
    keep_forms(alloc, compared, constraint, by, forms)?;
    let kept = forms.as_slice();
    let found = find_compared(alloc, before, number, constraint, compared, by, kept)?;
    Ok(found)
}

/// Makes the closed forms of the values that the sides are, as far as they are asked for.
fn keep_forms(
    alloc: Global,
    compared: Comparison,
    constraint: &Constraint,
    by: &Assignment,
    forms: &mut Sequence<KeptForm>,
) -> Result<(), AllocError>
    requires by { IsAssignment by.now }
    requires forms { AreKept by.now forms.old }
    requires left { IsTrue (tags_below most_tags (subst_of (values_by by.now) (pattern_view constraint.now.left))) }
    requires right { IsTrue (tags_below most_tags (subst_of (values_by by.now) (right_pattern (right_view constraint.now.right)))) }
    ensures { OnOk result (AreKept by.now forms.new) }
{
    match compared {
        Comparison::SameWithForm => Ok(()),
        Comparison::Same => keep_right(alloc, &constraint.right, by, forms),
        Comparison::Apart => {
            keep_left(alloc, &constraint.left, by, forms)?;
            keep_right(alloc, &constraint.right, by, forms)
        }
    }
}

/// The same by what is known of its sides.
fn find_compared(
    alloc: Global,
    before: Finding,
    number: usize,
    constraint: &Constraint,
    compared: Comparison,
    by: &Assignment,
    forms: &[KeptForm],
) -> Result<Finding, AllocError>
    requires by { IsAssignment by.now }
    requires forms { AreKept by.now forms.now }
    requires left { IsTrue (tags_below most_tags (subst_of (values_by by.now) (pattern_view constraint.now.left))) }
    requires right { IsTrue (tags_below most_tags (subst_of (values_by by.now) (right_pattern (right_view constraint.now.right)))) }
    requires compared { Compares (subst_of (values_by by.now) (pattern_view constraint.now.left))
        (subst_of (values_by by.now) (right_pattern (right_view constraint.now.right))) compared }
    ensures { IfOk result (Follows number (subst_of (values_by by.now) (pattern_view constraint.now.left))
        (subst_of (values_by by.now) (right_pattern (right_view constraint.now.right))) before) }
{
    match compared {
        Comparison::SameWithForm => Ok(before),
        Comparison::Same => find_same(alloc, before, &constraint.right, by, forms),
        Comparison::Apart => find_apart(alloc, before, number, constraint, by, forms),
    }
}

/// The same where both sides are this one.
fn find_same(
    alloc: Global,
    before: Finding,
    side: &Right,
    by: &Assignment,
    forms: &[KeptForm],
) -> Result<Finding, AllocError>
    requires by { IsAssignment by.now }
    requires forms { AreKept by.now forms.now }
    requires tags { IsTrue (tags_below most_tags (subst_of (values_by by.now) (right_pattern (right_view side.now)))) }
    ensures { let f = subst_of (values_by by.now) (right_pattern (right_view side.now)) in
        (number : ℕ) → IfOk result (Follows number f f before) }
{
    let form = right_form(alloc, side, by, forms)?;
    match form {
        Some(_form) => Ok(before),
        None => Ok(Finding::TooLarge),
    }
}

/// The same where the sides may differ.
fn find_apart(
    alloc: Global,
    before: Finding,
    number: usize,
    constraint: &Constraint,
    by: &Assignment,
    forms: &[KeptForm],
) -> Result<Finding, AllocError>
    requires by { IsAssignment by.now }
    requires forms { AreKept by.now forms.now }
    requires left { IsTrue (tags_below most_tags (subst_of (values_by by.now) (pattern_view constraint.now.left))) }
    requires right { IsTrue (tags_below most_tags (subst_of (values_by by.now) (right_pattern (right_view constraint.now.right)))) }
    ensures { IfOk result (Follows number (subst_of (values_by by.now) (pattern_view constraint.now.left))
        (subst_of (values_by by.now) (right_pattern (right_view constraint.now.right))) before) }
{
    let right = right_form(alloc, &constraint.right, by, forms)?;
    match right {
        Some(form) => find_against(alloc, before, number, &constraint.left, form, by, forms),
        None => Ok(Finding::TooLarge),
    }
}

/// The same by the left side and the closed form of the right one.
fn find_against(
    alloc: Global,
    before: Finding,
    number: usize,
    left: &Pattern,
    right: SideForm,
    by: &Assignment,
    forms: &[KeptForm],
) -> Result<Finding, AllocError>
    requires by { IsAssignment by.now }
    requires forms { AreKept by.now forms.now }
    requires left { IsTrue (tags_below most_tags (subst_of (values_by by.now) (pattern_view left.now))) }
    requires right { length (side_sets right) < 2 ^ 32 }
    ensures { (f : Pat) → Some (side_sets right.entry) ≡ closed_form most_tags f
        → IfOk result (Follows number (subst_of (values_by by.now) (pattern_view left.now)) f before) }
{
    match left_form(alloc, left, by, forms)? {
        Some(form) => find_covering(alloc, before, number, form, right),
        None => Ok(Finding::TooLarge),
    }
}

/// The same by the closed forms of both sides. Where a constraint isn't covered, no more covers are looked for.
fn find_covering(
    alloc: Global,
    before: Finding,
    number: usize,
    left: SideForm,
    right: SideForm,
) -> Result<Finding, AllocError>
    requires { length (side_sets right) < 2 ^ 32 }
    ensures { (e f : Pat) → Some (side_sets left.entry) ≡ closed_form most_tags e → Some (side_sets right.entry) ≡ closed_form most_tags f
        → IfOk result (Follows number e f before) }
{
    match before {
        Finding::Covered => find_first(alloc, number, left.as_slice(), right.as_slice()),
        Finding::Uncovered(first) => Ok(Finding::Uncovered(first)),
        Finding::TooLarge => Ok(Finding::TooLarge),
    }
}

/// What is found of a constraint where each one before it is covered.
fn find_first(
    alloc: Global,
    number: usize,
    left: &[LinearSet],
    right: &[LinearSet],
) -> Result<Finding, AllocError>
    requires { length right.now < 2 ^ 32 }
    ensures { (e f : Pat) → Some (sets_view left.now) ≡ closed_form most_tags e → Some (sets_view right.now) ≡ closed_form most_tags f
        → IfOk result (Follows number e f Finding.Covered) }
{
    if is_covered(alloc, left, right)? {
        Ok(Finding::Covered)
    } else {
        Ok(Finding::Uncovered(number))
    }
}
