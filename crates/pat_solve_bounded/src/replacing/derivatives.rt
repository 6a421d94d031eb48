// The derivative by a variable.
ghost use Rattle.std.specs.Prelude.{◌≡◌, ◌<◌, ◌+◌, ◌*◌, ◌∷◌, ℕ, List, Option, IfOk, OnOk, Some};
ghost use Rattle.pat_words_spec.specs.Patterns.{Pat, Var};
ghost use Rattle.pat_words_spec.specs.Sizes.{size_of};
ghost use Rattle.pat_patterns.specs.Views.{pattern_view};
ghost use Rattle.pat_solve_spec.specs.Assignments.{derivative as derivative_of};
ghost use Rattle.pat_solve_bounded.specs.Limits.{within, prod_within};
ghost use Rattle.pat_solve_bounded.specs.Views.{limited_view, measured_view, parts_view};
ghost use Rattle.pat_solve_bounded.specs.replacing.Stacks.{joined, joined_one};
ghost use Rattle.pat_solve_bounded.specs.replacing.Deriving.{product_slope as product_slope_of, star_slope as star_slope_of, is_zero_within, outcome, work};

use crate::replacing::joining::join_sum;
use crate::{Measured, Part, measure, product, star, sum};
use pat_patterns::Pattern;
use pat_sequences::Stack;
use std::alloc::{AllocError, Global};

/// What is still to be done.
#[derive(Clone, Copy)]
pub enum Task<'p> {
    /// To derive a part.
    Visit(&'p Pattern),
    /// To add the two derivatives that are made last.
    Sum,
    /// To make the derivative of a product of these, of the two that are made last.
    Product(&'p Pattern, &'p Pattern),
    /// To make the derivative of a star of this, of the one that is made last.
    Star(&'p Pattern),
}

// So many levels of a pattern are walked down by calls, which take no memory. What is deeper stands on stacks.
const MOST_CALLS: u32 = 64;

/// The derivative of a pattern by a variable, by the simplifying forms, unless it is too large.
pub fn derivative<'a>(
    alloc: Global,
    p: &Pattern,
    variable: u32,
) -> Result<Option<Part<'a>>, AllocError>
    ensures { IfOk result (λ part. limited_view part ≡ within (derivative_of variable (pattern_view p.now))) }
{
    derivative_by_calls(alloc, p, variable, MOST_CALLS)
}

/// The same by at most so many calls, one in the other.
#[tactic(auto, using(crate::proofs::Slopes::sum_slope_is, crate::proofs::Slopes::product_slope_is, crate::proofs::Slopes::star_slope_is))]
fn derivative_by_calls<'a>(
    alloc: Global,
    p: &Pattern,
    variable: u32,
    calls: u32,
) -> Result<Option<Part<'a>>, AllocError>
    ensures { IfOk result (λ part. limited_view part ≡ within (derivative_of variable (pattern_view p.now))) }
{
    if calls == 0 {
        return derivative_by_tasks(alloc, p, variable);
    }
    match p {
        Pattern::Zero | Pattern::One | Pattern::Tag(_) => Ok(Some(Part::Made(Measured::zero()))),
        Pattern::Var(number) => Ok(Some(Part::Made(slope_of(*number, variable)))),
        Pattern::Sum(left, right) => {
            let left = derivative_by_calls(alloc, left, variable, calls - 1)?;
            let right = derivative_by_calls(alloc, right, variable, calls - 1)?;
            sum(alloc, left, right)
        }
        Pattern::Prod(left, right) => {
            let left_slope = derivative_by_calls(alloc, left, variable, calls - 1)?;
            let right_slope = derivative_by_calls(alloc, right, variable, calls - 1)?;
            product_slope(alloc, left, right, left_slope, right_slope)
        }
        Pattern::Star(part) => {
            let slope = derivative_by_calls(alloc, part, variable, calls - 1)?;
            star_slope(alloc, part, slope)
        }
    }
}

/// The derivative of a variable.
fn slope_of(number: u32, variable: u32) -> Measured
    ensures { measured_view result ≡ derivative_of variable (Var number) }
{
    if number == variable {
        Measured::one()
    } else {
        Measured::zero()
    }
}

/// The same by tasks on a stack.
fn derivative_by_tasks<'a>(
    alloc: Global,
    p: &Pattern,
    variable: u32,
) -> Result<Option<Part<'a>>, AllocError>
    ensures { IfOk result (λ part. limited_view part ≡ within (derivative_of variable (pattern_view p.now))) }
{
    let mut tasks = Stack::new(alloc);
    let mut done = Stack::new(alloc);
    tasks.push(Task::Visit(p))?;
    while let Some(task) = tasks.pop() {
        perform(alloc, variable, task, &mut tasks, &mut done)?;
    }
    match done.pop() {
        Some(part) => Ok(part),
        None => unreachable!(),
    }
}

/// Does a task.
fn perform<'a, 'p>(
    alloc: Global,
    variable: u32,
    task: Task<'p>,
    tasks: &mut Stack<Task<'p>>,
    done: &mut Stack<Option<Part<'a>>>,
) -> Result<(), AllocError>
    ensures outcome { OnOk result (outcome variable tasks.new (parts_view done.new)
        ≡ outcome variable (task.entry ∷ tasks.old) (parts_view done.old)) }
    ensures less { OnOk result (work tasks.new < work (task.entry ∷ tasks.old)) }
{
    match task {
        Task::Visit(p) => visit(variable, p, tasks, done),
        Task::Sum => join_sum(alloc, done),
        Task::Product(left, right) => join_product_slope(alloc, left, right, done),
        Task::Star(part) => join_star_slope(alloc, part, done),
    }
}

/// Makes the derivative of a part without parts, or puts its parts and then their joining among the tasks.
fn visit<'a, 'p>(
    variable: u32,
    p: &'p Pattern,
    tasks: &mut Stack<Task<'p>>,
    done: &mut Stack<Option<Part<'a>>>,
) -> Result<(), AllocError>
    ensures outcome { OnOk result (outcome variable tasks.new (parts_view done.new)
        ≡ outcome variable tasks.old (within (derivative_of variable (pattern_view p.now)) ∷ parts_view done.old)) }
    ensures less { OnOk result (work tasks.new < 2 * size_of (pattern_view p.now) + work tasks.old) }
{
    match p {
        Pattern::Zero | Pattern::One | Pattern::Tag(_) => {
            done.push(Some(Part::Made(Measured::zero())))
        }
        Pattern::Var(number) => done.push(Some(Part::Made(slope_of(*number, variable)))),
        Pattern::Sum(left, right) => put_parts(tasks, Task::Sum, left, right),
        Pattern::Prod(left, right) => put_parts(tasks, Task::Product(left, right), left, right),
        Pattern::Star(part) => put_part(tasks, Task::Star(part), part),
    }
}

/// The derivatives of both factors, which are on top, give way to that of their product.
fn join_product_slope<'a>(
    alloc: Global,
    left: &Pattern,
    right: &Pattern,
    done: &mut Stack<Option<Part<'a>>>,
) -> Result<(), AllocError>
    ensures { OnOk result (parts_view done.new
        ≡ joined (product_slope_of (pattern_view left.now) (pattern_view right.now)) (parts_view done.old)) }
{
    match done.pop() {
        Some(right_slope) => match done.pop() {
            Some(left_slope) => {
                let whole = product_slope(alloc, left, right, left_slope, right_slope)?;
                done.push(whole)
            }
            None => Ok(()),
        },
        None => Ok(()),
    }
}

/// The derivative of a part, which is on top, gives way to that of its star.
fn join_star_slope<'a>(
    alloc: Global,
    part: &Pattern,
    done: &mut Stack<Option<Part<'a>>>,
) -> Result<(), AllocError>
    ensures { OnOk result (parts_view done.new ≡ joined_one (star_slope_of (pattern_view part.now)) (parts_view done.old)) }
{
    match done.pop() {
        Some(slope) => {
            let whole = star_slope(alloc, part, slope)?;
            done.push(whole)
        }
        None => Ok(()),
    }
}

/// The derivative of a product by those of its factors. A factor is copied only where the whole may still be within the limits.
fn product_slope<'a>(
    alloc: Global,
    left: &Pattern,
    right: &Pattern,
    left_slope: Option<Part<'a>>,
    right_slope: Option<Part<'a>>,
) -> Result<Option<Part<'a>>, AllocError>
    ensures { IfOk result (λ part. limited_view part
        ≡ product_slope_of (pattern_view left.now) (pattern_view right.now) (limited_view left_slope.entry)
        (limited_view right_slope.entry)) }
{
    if left_slope.is_none() && !right.is_zero() {
        return Ok(None);
    }
    if right_slope.is_none() && !left.is_zero() {
        return Ok(None);
    }
    let first = product_with(alloc, left_slope, right)?;
    let second = with_product(alloc, left, right_slope)?;
    sum(alloc, first, second)
}

/// The derivative of a star by that of its part.
fn star_slope<'a>(
    alloc: Global,
    part: &Pattern,
    slope: Option<Part<'a>>,
) -> Result<Option<Part<'a>>, AllocError>
    ensures { IfOk result (λ whole. limited_view whole ≡ star_slope_of (pattern_view part.now) (limited_view slope.entry)) }
{
    match slope {
        Some(slope) => star_times(alloc, part, slope),
        None => Ok(None),
    }
}

/// The star of a part times its derivative. The part is copied only where that isn't 0.
fn star_times<'a>(
    alloc: Global,
    part: &Pattern,
    slope: Part<'a>,
) -> Result<Option<Part<'a>>, AllocError>
    ensures { IfOk result (λ whole. limited_view whole ≡ star_slope_of (pattern_view part.now) (limited_view (Some slope.entry))) }
{
    if slope.as_measured().pattern.is_zero() {
        return Ok(Some(slope));
    }
    let part = copied(part)?;
    let rounds = star(alloc, part)?;
    product(alloc, rounds, Some(slope))
}

/// The product of a derivative with a factor, which is copied only where it is kept.
fn product_with<'a>(
    alloc: Global,
    slope: Option<Part<'a>>,
    factor: &Pattern,
) -> Result<Option<Part<'a>>, AllocError>
    ensures { IfOk result (λ part. limited_view part ≡ prod_within (limited_view slope.entry) (within (pattern_view factor.now))) }
{
    if slope_is_zero(&slope) {
        return Ok(slope);
    }
    let factor = copied(factor)?;
    product(alloc, slope, factor)
}

/// The product of a factor, which is copied only where it is kept, with a derivative.
fn with_product<'a>(
    alloc: Global,
    factor: &Pattern,
    slope: Option<Part<'a>>,
) -> Result<Option<Part<'a>>, AllocError>
    ensures { IfOk result (λ part. limited_view part ≡ prod_within (within (pattern_view factor.now)) (limited_view slope.entry)) }
{
    if slope_is_zero(&slope) {
        return Ok(slope);
    }
    let factor = copied(factor)?;
    product(alloc, factor, slope)
}

/// Whether the derivative is 0.
fn slope_is_zero(slope: &Option<Part>) -> bool
    ensures { result ≡ is_zero_within (limited_view slope.now) }
{
    match slope {
        Some(part) => part.as_measured().pattern.is_zero(),
        None => false,
    }
}

/// A copy of the pattern, unless it is too large.
fn copied<'a>(p: &Pattern) -> Result<Option<Part<'a>>, AllocError>
    ensures { IfOk result (λ part. limited_view part ≡ within (pattern_view p.now)) }
{
    match measure(p.copy()?) {
        Some(copy) => Ok(Some(Part::Made(copy))),
        None => Ok(None),
    }
}

/// Puts both parts, the left one on top, and what is to be done with their derivatives then among the tasks.
fn put_parts<'p>(
    tasks: &mut Stack<Task<'p>>,
    joining: Task<'p>,
    left: &'p Pattern,
    right: &'p Pattern,
) -> Result<(), AllocError>
    ensures outcome { OnOk result ((k : ℕ) (made : List (Option Pat))
        → outcome k tasks.new made ≡ outcome k (joining.entry ∷ tasks.old)
        (within (derivative_of k (pattern_view right.now)) ∷ within (derivative_of k (pattern_view left.now)) ∷ made)) }
    ensures work { OnOk result (work tasks.new ≡ 2 * size_of (pattern_view left.now)
        + (2 * size_of (pattern_view right.now) + work (joining.entry ∷ tasks.old))) }
{
    tasks.push(joining)?;
    tasks.push(Task::Visit(right))?;
    tasks.push(Task::Visit(left))
}

/// Puts the part, and what is to be done with its derivative then among the tasks.
fn put_part<'p>(
    tasks: &mut Stack<Task<'p>>,
    joining: Task<'p>,
    part: &'p Pattern,
) -> Result<(), AllocError>
    ensures outcome { OnOk result ((k : ℕ) (made : List (Option Pat))
        → outcome k tasks.new made ≡ outcome k (joining.entry ∷ tasks.old) (within (derivative_of k (pattern_view part.now)) ∷ made)) }
    ensures work { OnOk result (work tasks.new ≡ 2 * size_of (pattern_view part.now) + work (joining.entry ∷ tasks.old)) }
{
    tasks.push(joining)?;
    tasks.push(Task::Visit(part))
}
