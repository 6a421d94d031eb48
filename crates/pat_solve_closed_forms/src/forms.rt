// Closed forms of an interface's values, each made once where it is asked for, and of the sides of its constraints.
ghost use Rattle.std.specs.Prelude.{◌≡◌, ◌<◌, length, get_or, IfOk, OnOk, IfSome, IsTrue};
ghost use Rattle.pat_words_spec.specs.Patterns.{subst_of};
ghost use Rattle.pat_words_spec.specs.Tags.{tags_below};
ghost use Rattle.pat_inclusion_spec.specs.Counts.{most_tags};
ghost use Rattle.pat_inclusion_spec.specs.ClosedForms.{closed_form};
ghost use Rattle.pat_patterns.specs.Views.{pattern_view};
ghost use Rattle.pat_linear.specs.Views.{sets_view};
ghost use Rattle.pat_types.specs.Views.{right_view};
ghost use Rattle.pat_solve_closed_forms.specs.Sides.{right_pattern};
ghost use Rattle.pat_solve_closed_forms.specs.Forms.{side_sets, side_view, values_by, IsAssignment, IsKept, AreKept};

use pat_linear::LinearSet;
use pat_patterns::Pattern;
use pat_sequences::{Sequence, let_go};
use pat_solve_bounded::{Measured, Replacement, find_variable};
use pat_solve_elimination::side_form;
use pat_types::Right;
use std::alloc::{AllocError, Global};

/// Ascending variables with their values.
#[derive(Clone, Copy)]
pub struct Assignment<'a> {
    pub variables: &'a [u32],
    pub values: &'a [Measured],
}

/// What is kept of the closed form of a variable's value.
#[derive(Drop)]
pub enum KeptForm {
    /// It isn't made yet.
    Unmade,
    /// There is none, since it is too large.
    TooLarge,
    /// Its sets.
    Sets(Sequence<LinearSet>),
}

/// The closed form of a side.
#[derive(Drop)]
pub enum SideForm<'a> {
    /// That of a variable's value.
    Held(&'a [LinearSet]),
    /// One of its own.
    Own(Sequence<LinearSet>),
}

impl<'a> SideForm<'a> {
    /// Its sets.
    pub fn as_slice(&self) -> &[LinearSet]
        ensures { sets_view result.now ≡ side_sets self.now }
    {
        match self {
            SideForm::Held(sets) => sets,
            SideForm::Own(sets) => sets.as_slice(),
        }
    }
}

/// For each variable that the closed form of its value isn't made yet.
pub fn unmade_forms(alloc: Global, by: &Assignment) -> Result<Sequence<KeptForm>, AllocError>
    ensures { IfOk result (AreKept by.now) }
{
    let mut forms = Sequence::new(alloc);
    for _ in by.variables {
        forms.push(KeptForm::Unmade)?;
    }
    Ok(forms)
}

/// Whether the closed form at this place isn't made yet.
fn is_unmade(forms: &[KeptForm], place: usize) -> bool
    requires { place < length forms.now }
{
    matches!(&forms[place], KeptForm::Unmade)
}

/// Makes the closed form of the variable's value, if it isn't made yet.
fn keep_form(
    alloc: Global,
    variable: u32,
    by: &Assignment,
    forms: &mut Sequence<KeptForm>,
) -> Result<(), AllocError>
    requires by { IsAssignment by.now }
    requires forms { AreKept by.now forms.old }
    requires tags { IsTrue (tags_below most_tags (values_by by.now variable)) }
    ensures { OnOk result (AreKept by.now forms.new) }
{
    match find_variable(by.variables, variable) {
        Some(place) => keep_at(alloc, place, variable, by, forms),
        None => Ok(()),
    }
}

/// The same at the variable's place.
fn keep_at(
    alloc: Global,
    place: usize,
    variable: u32,
    by: &Assignment,
    forms: &mut Sequence<KeptForm>,
) -> Result<(), AllocError>
    requires by { IsAssignment by.now }
    requires forms { AreKept by.now forms.old }
    requires place { place < length by.now.variables.now }
    requires variable { get_or by.now.variables.now place 0 ≡ variable }
    requires tags { IsTrue (tags_below most_tags (values_by by.now variable)) }
    ensures { OnOk result (AreKept by.now forms.new) }
{
    if !is_unmade(forms.as_slice(), place) {
        return Ok(());
    }
    let form = value_form(alloc, variable, by)?;
    let_go(forms.replace(place, form));
    Ok(())
}

/// The closed form of the variable's value.
fn value_form(alloc: Global, variable: u32, by: &Assignment) -> Result<KeptForm, AllocError>
    requires by { IsAssignment by.now }
    requires tags { IsTrue (tags_below most_tags (values_by by.now variable)) }
    ensures { IfOk result (IsKept (closed_form most_tags (values_by by.now variable))) }
{
    let side = Pattern::Var(variable);
    let own = side_form(alloc, &side, &Replacement::All(by.variables, by.values))?;
    match own {
        Some(sets) => Ok(KeptForm::Sets(sets)),
        None => Ok(KeptForm::TooLarge),
    }
}

/// Makes the closed form of a left side that is a variable, if it isn't made yet.
pub fn keep_left(
    alloc: Global,
    side: &Pattern,
    by: &Assignment,
    forms: &mut Sequence<KeptForm>,
) -> Result<(), AllocError>
    requires by { IsAssignment by.now }
    requires forms { AreKept by.now forms.old }
    requires tags { IsTrue (tags_below most_tags (subst_of (values_by by.now) (pattern_view side.now))) }
    ensures { OnOk result (AreKept by.now forms.new) }
{
    match side {
        Pattern::Var(variable) => keep_form(alloc, *variable, by, forms),
        _ => Ok(()),
    }
}

/// The same of a right side.
pub fn keep_right(
    alloc: Global,
    side: &Right,
    by: &Assignment,
    forms: &mut Sequence<KeptForm>,
) -> Result<(), AllocError>
    requires by { IsAssignment by.now }
    requires forms { AreKept by.now forms.old }
    requires tags { IsTrue (tags_below most_tags (subst_of (values_by by.now) (right_pattern (right_view side.now)))) }
    ensures { OnOk result (AreKept by.now forms.new) }
{
    match side {
        Right::Var(variable) => keep_form(alloc, *variable, by, forms),
        Right::Pattern(_) => Ok(()),
    }
}

/// The closed form of a left side, with its variables replaced; `None` exactly where that is too large.
pub fn left_form<'a>(
    alloc: Global,
    side: &Pattern,
    by: &Assignment,
    forms: &'a [KeptForm],
) -> Result<Option<SideForm<'a>>, AllocError>
    requires by { IsAssignment by.now }
    requires forms { AreKept by.now forms.now }
    requires tags { IsTrue (tags_below most_tags (subst_of (values_by by.now) (pattern_view side.now))) }
    ensures { IfOk result (λ form. side_view form ≡ closed_form most_tags (subst_of (values_by by.now) (pattern_view side.now))) }
{
    match side {
        Pattern::Var(variable) => variable_form(alloc, *variable, by, forms),
        _ => own_form(alloc, side, by),
    }
}

/// The same of a right side.
pub fn right_form<'a>(
    alloc: Global,
    side: &Right,
    by: &Assignment,
    forms: &'a [KeptForm],
) -> Result<Option<SideForm<'a>>, AllocError>
    requires by { IsAssignment by.now }
    requires forms { AreKept by.now forms.now }
    requires tags { IsTrue (tags_below most_tags (subst_of (values_by by.now) (right_pattern (right_view side.now)))) }
    ensures { IfOk result (λ form. side_view form
        ≡ closed_form most_tags (subst_of (values_by by.now) (right_pattern (right_view side.now)))) }
{
    match side {
        Right::Var(variable) => variable_form(alloc, *variable, by, forms),
        Right::Pattern(pattern) => own_form(alloc, pattern, by),
    }
}

/// The closed form of the variable's value, which is held where it is made already.
fn variable_form<'a>(
    alloc: Global,
    variable: u32,
    by: &Assignment,
    forms: &'a [KeptForm],
) -> Result<Option<SideForm<'a>>, AllocError>
    requires by { IsAssignment by.now }
    requires forms { AreKept by.now forms.now }
    requires tags { IsTrue (tags_below most_tags (values_by by.now variable)) }
    ensures { IfOk result (λ form. side_view form ≡ closed_form most_tags (values_by by.now variable)) }
{
    match kept_form(variable, by, forms) {
        Some(KeptForm::Sets(sets)) => Ok(Some(SideForm::Held(sets.as_slice()))),
        Some(KeptForm::TooLarge) => Ok(None),
        Some(KeptForm::Unmade) | None => {
            let side = Pattern::Var(variable);
            own_form(alloc, &side, by)
        }
    }
}

/// What is kept of the closed form of the variable's value, if it has one.
fn kept_form<'a>(variable: u32, by: &Assignment, forms: &'a [KeptForm]) -> Option<&'a KeptForm>
    requires by { IsAssignment by.now }
    requires forms { AreKept by.now forms.now }
    ensures { IfSome result (λ form. IsKept (closed_form most_tags (values_by by.now variable)) form.now) }
{
    match find_variable(by.variables, variable) {
        Some(place) => Some(&forms[place]),
        None => None,
    }
}

/// A closed form of the side's own.
fn own_form<'a>(
    alloc: Global,
    side: &Pattern,
    by: &Assignment,
) -> Result<Option<SideForm<'a>>, AllocError>
    requires by { IsAssignment by.now }
    requires tags { IsTrue (tags_below most_tags (subst_of (values_by by.now) (pattern_view side.now))) }
    ensures { IfOk result (λ form. side_view form ≡ closed_form most_tags (subst_of (values_by by.now) (pattern_view side.now))) }
{
    let own = side_form(alloc, side, &Replacement::All(by.variables, by.values))?;
    match own {
        Some(sets) => Ok(Some(SideForm::Own(sets))),
        None => Ok(None),
    }
}
