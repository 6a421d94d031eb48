// The variables that parts need, in ascending order. They are held on a stack, the least on top, so that variables which come in
// descending order are put on it one by one.
ghost use Rattle.std.specs.Prelude.{◌≡◌, ◌<◌, ◌∷◌, false, map, IfOk, OnOk, IfSome, IfNone};
ghost use Rattle.std.specs.Map.{keys_of};
ghost use Rattle.pat_infer_spec.specs.Needs.{add, add_all, names_of_two};
ghost use Rattle.pat_types.specs.Views.{needs_view};
ghost use Rattle.pat_infer_environments.specs.variables.Names.{names_of_outer, put_on, IsLifted, has_lesser, first_is_name};

use pat_sequences::{Sequence, Stack};
use pat_types::MailboxType;
use std::alloc::{AllocError, Global};

/// The variables that one of the parts needs, in ascending order.
pub fn names_of_parts(
    alloc: Global,
    bound: &[(u32, MailboxType)],
    body: &[(u32, MailboxType)],
) -> Result<Sequence<u32>, AllocError>
    ensures { IfOk result (λ names. names ≡ names_of_two (needs_view bound.now) (needs_view body.now)) }
{
    let mut names = Stack::new(alloc);
    add_names(alloc, &mut names, body)?;
    add_names(alloc, &mut names, bound)?;
    listed(alloc, names)
}

/// The variables that some branch needs, in ascending order.
pub fn names_of(
    alloc: Global,
    branches: &[Sequence<(u32, MailboxType)>],
) -> Result<Sequence<u32>, AllocError>
    ensures { IfOk result (λ names. names ≡ names_of_outer (map needs_view branches.now)) }
{
    let mut names = Stack::new(alloc);
    let mut place = branches.len();
    while place > 0 {
        place -= 1;
        add_names(alloc, &mut names, branches[place].as_slice())?;
    }
    listed(alloc, names)
}

/// The names from the top down.
fn listed(alloc: Global, names: Stack<u32>) -> Result<Sequence<u32>, AllocError>
    ensures { IfOk result (λ list. list ≡ names) }
{
    let mut list = Sequence::new(alloc);
    list.items.extend_from_slice(names.as_slice())?;
    list.items.reverse();
    Ok(list)
}

/// The names, with the variables that are needed among them.
fn add_names(
    alloc: Global,
    names: &mut Stack<u32>,
    needs: &[(u32, MailboxType)],
) -> Result<(), AllocError>
    ensures { OnOk result (names.new ≡ add_all (keys_of (needs_view needs.now)) names.old) }
{
    let mut place = needs.len();
    while place > 0 {
        place -= 1;
        add_name(alloc, names, needs[place].0)?;
    }
    Ok(())
}

/// The names, with one more. Names mostly come in descending order, and then none has to be lifted.
#[tactic(auto, using(crate::proofs::Naming::name_added))]
fn add_name(alloc: Global, names: &mut Stack<u32>, variable: u32) -> Result<(), AllocError>
    ensures { OnOk result (names.new ≡ add variable names.old) }
{
    if !is_lesser_on_top(names, variable) {
        return put_on_top(names, variable);
    }
    let lesser = lift_lesser(alloc, names, variable)?;
    put_on_top(names, variable)?;
    put_back(lesser, names)
}

/// Takes the lesser names off, the greatest of them on top.
#[tactic(auto, using(crate::proofs::Naming::one_lifted))]
fn lift_lesser(
    alloc: Global,
    names: &mut Stack<u32>,
    variable: u32,
) -> Result<Stack<u32>, AllocError>
    ensures { IfOk result (λ lesser. IsLifted variable names.old lesser names.new) }
{
    let mut lesser = Stack::new(alloc);
    while let Some(name) = pop_lesser(names, variable) {
        lesser.push(name)?;
    }
    Ok(lesser)
}

/// Takes the name on top, if it is lesser.
fn pop_lesser(names: &mut Stack<u32>, variable: u32) -> Option<u32>
    ensures some { IfSome result (λ x. (names.old ≡ x ∷ names.new) × (x < variable)) }
    ensures none { IfNone result ((names.new ≡ names.old) × (has_lesser variable names.new ≡ false)) }
{
    if is_lesser_on_top(names, variable) {
        names.pop()
    } else {
        None
    }
}

fn is_lesser_on_top(names: &Stack<u32>, variable: u32) -> bool
    ensures { result ≡ has_lesser variable names.now }
{
    match names.top() {
        Some(top) => *top < variable,
        None => false,
    }
}

/// Puts the variable on the names, of which none is lesser, unless it is there.
#[tactic(auto, using(crate::proofs::Naming::add_new, crate::proofs::Naming::add_there))]
fn put_on_top(names: &mut Stack<u32>, variable: u32) -> Result<(), AllocError>
    requires { has_lesser variable names.old ≡ false }
    ensures { OnOk result (names.new ≡ add variable names.old) }
{
    if is_on_top(names, variable) {
        Ok(())
    } else {
        names.push(variable)
    }
}

fn is_on_top(names: &Stack<u32>, variable: u32) -> bool
    ensures { result ≡ first_is_name variable names.now }
{
    match names.top() {
        Some(top) => variable == *top,
        None => false,
    }
}

/// Puts names on top of others, one by one.
fn put_back(lesser: Stack<u32>, names: &mut Stack<u32>) -> Result<(), AllocError>
    ensures { OnOk result (names.new ≡ put_on lesser names.old) }
{
    let mut left = lesser;
    while let Some(name) = left.pop() {
        names.push(name)?;
    }
    Ok(())
}
