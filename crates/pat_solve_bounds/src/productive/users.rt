// Which constraints name which variables.
ghost use Rattle.std.specs.Prelude.{◌≡◌, ◌<◌, [], length, replicate, IfOk, OnOk};
ghost use Rattle.pat_patterns.specs.Views.{pattern_view};
ghost use Rattle.pat_solve_bounds.specs.lower_bounds.Sides.{sides_list};
ghost use Rattle.pat_solve_bounds.specs.productive.Users.{HasUsers, Notes, NotesAt, noted};

use pat_infer_problems::Constraint;
use pat_patterns::Pattern;
use pat_sequences::Sequence;
use std::alloc::{AllocError, Global};

/// Of each of so many variables the numbers of the constraints whose left sides name it.
pub fn users_of(
    alloc: Global,
    constraints: &[Constraint],
    count: usize,
) -> Result<Sequence<Sequence<usize>>, AllocError>
    ensures { IfOk result (HasUsers (sides_list constraints.now) count) }
{
    let mut users = no_users(alloc, count)?;
    for number in 0..constraints.len() {
        note_constraint(constraints, number, &mut users)?;
    }
    Ok(users)
}

/// So many empty lists.
fn no_users(alloc: Global, count: usize) -> Result<Sequence<Sequence<usize>>, AllocError>
    ensures { IfOk result (λ users. users ≡ replicate count []) }
{
    let mut users = Sequence::new(alloc);
    for _ in 0..count {
        users.push(Sequence::new(alloc))?;
    }
    Ok(users)
}

/// Notes the constraint with the number for each variable that its left side names.
fn note_constraint(
    constraints: &[Constraint],
    number: usize,
    users: &mut Sequence<Sequence<usize>>,
) -> Result<(), AllocError>
    requires { number < length constraints.now }
    ensures { OnOk result (NotesAt (sides_list constraints.now) number users.old users.new) }
{
    let constraint = &constraints[number];
    note(&constraint.left, number, users)
}

/// Notes the number for each variable of the pattern.
fn note(p: &Pattern, number: usize, users: &mut Sequence<Sequence<usize>>) -> Result<(), AllocError>
    ensures { OnOk result (Notes (pattern_view p.now) number users.old users.new) }
{
    match p {
        Pattern::Zero | Pattern::One | Pattern::Tag(_) => Ok(()),
        Pattern::Var(variable) => note_one(*variable as usize, number, users),
        Pattern::Sum(left, right) | Pattern::Prod(left, right) => {
            note(left, number, users)?;
            note(right, number, users)
        }
        Pattern::Star(part) => note(part, number, users),
    }
}

/// Notes the number for one variable, if that is there.
fn note_one(
    variable: usize,
    number: usize,
    users: &mut Sequence<Sequence<usize>>,
) -> Result<(), AllocError>
    ensures { OnOk result (users.new ≡ noted users.old variable number) }
{
    if variable < users.len() {
        users.items[variable].push(number)?;
    }
    Ok(())
}
