// Variables replaced.
ghost use Rattle.std.specs.Prelude.{◌≡◌, ◌<◌, ◌+◌, ◌*◌, ◌∷◌, ◌||◌, false, ℕ, List, Option, IfOk, OnOk, IsTrue};
ghost use Rattle.pat_words_spec.specs.Patterns.{Pat, subst_of, is_zero, is_one};
ghost use Rattle.pat_patterns.specs.Views.{pattern_view};
ghost use Rattle.pat_solve_bounded.specs.Limits.{within};
ghost use Rattle.pat_solve_bounded.specs.Views.{limited_view, parts_view};
ghost use Rattle.pat_solve_bounded.specs.Variables.{has_var};
ghost use Rattle.pat_words_spec.specs.Sizes.{size_of};
ghost use Rattle.pat_solve_bounded.specs.replacing.Replacing.{replaced_by, IsReplacement, Stays, outcome, work};

use crate::part::square;
use crate::replacing::joining::{join_product, join_star, join_sum};
use crate::replacing::replacement::Replacement;
use crate::{Measured, Part, measure, product, star, sum};
use pat_patterns::Pattern;
use pat_sequences::Stack;
use std::alloc::{AllocError, Global};

/// What is still to be done.
#[derive(Clone, Copy)]
pub enum Task<'p> {
    /// To replace the variables of a part.
    Visit(&'p Pattern),
    /// To add the two parts that are made last.
    Sum,
    /// To multiply them.
    Product,
    /// To take the star of the part that is made last.
    Star,
}

// So many levels of a pattern are walked down by calls, which take no memory. What is deeper stands on stacks.
const MOST_CALLS: u32 = 64;

/// The pattern with its variables replaced, all by the simplifying forms, unless it is too large.
pub fn replaced<'a>(
    alloc: Global,
    p: &Pattern,
    by: &Replacement<'a>,
) -> Result<Option<Part<'a>>, AllocError>
    requires { IsReplacement by.now }
    ensures { IfOk result (λ part. limited_view part ≡ within (subst_of (replaced_by by.now) (pattern_view p.now))) }
{
    if stays(p, MOST_CALLS) {
        return kept_whole(p);
    }
    replaced_by_calls(alloc, p, by, MOST_CALLS)
}

/// The same by at most so many calls, one in the other.
#[tactic(auto, using(crate::proofs::Turns::sum_turn, crate::proofs::Turns::prod_turn, crate::proofs::Turns::square_turn))]
fn replaced_by_calls<'a>(
    alloc: Global,
    p: &Pattern,
    by: &Replacement<'a>,
    calls: u32,
) -> Result<Option<Part<'a>>, AllocError>
    requires { IsReplacement by.now }
    ensures { IfOk result (λ part. limited_view part ≡ within (subst_of (replaced_by by.now) (pattern_view p.now))) }
{
    if calls == 0 {
        return replaced_by_tasks(alloc, p, by);
    }
    match p {
        Pattern::Zero => Ok(Some(Part::Made(Measured::zero()))),
        Pattern::One => Ok(Some(Part::Made(Measured::one()))),
        Pattern::Tag(tag) => Ok(Some(Part::Made(Measured::tag(*tag)))),
        Pattern::Var(number) => Ok(Some(by.value_of(*number))),
        Pattern::Sum(left, right) => {
            let left = replaced_by_calls(alloc, left, by, calls - 1)?;
            let right = replaced_by_calls(alloc, right, by, calls - 1)?;
            sum(alloc, left, right)
        }
        Pattern::Prod(left, right) => {
            let first = replaced_by_calls(alloc, left, by, calls - 1)?;
            if left.is_same(right) {
                return square(alloc, first);
            }
            let second = replaced_by_calls(alloc, right, by, calls - 1)?;
            product(alloc, first, second)
        }
        Pattern::Star(part) => {
            let part = replaced_by_calls(alloc, part, by, calls - 1)?;
            star(alloc, part)
        }
    }
}

/// The same by tasks on a stack.
fn replaced_by_tasks<'a>(
    alloc: Global,
    p: &Pattern,
    by: &Replacement<'a>,
) -> Result<Option<Part<'a>>, AllocError>
    requires { IsReplacement by.now }
    ensures { IfOk result (λ part. limited_view part ≡ within (subst_of (replaced_by by.now) (pattern_view p.now))) }
{
    let mut tasks = Stack::new(alloc);
    let mut done = Stack::new(alloc);
    tasks.push(Task::Visit(p))?;
    while let Some(task) = tasks.pop() {
        perform(alloc, by, task, &mut tasks, &mut done)?;
    }
    match done.pop() {
        Some(part) => Ok(part),
        None => unreachable!(),
    }
}

/// Does a task.
fn perform<'a, 'p>(
    alloc: Global,
    by: &Replacement<'a>,
    task: Task<'p>,
    tasks: &mut Stack<Task<'p>>,
    done: &mut Stack<Option<Part<'a>>>,
) -> Result<(), AllocError>
    requires { IsReplacement by.now }
    ensures outcome { OnOk result (outcome (replaced_by by.now) tasks.new (parts_view done.new)
        ≡ outcome (replaced_by by.now) (task.entry ∷ tasks.old) (parts_view done.old)) }
    ensures less { OnOk result (work tasks.new < work (task.entry ∷ tasks.old)) }
{
    match task {
        Task::Visit(p) => visit(alloc, by, p, tasks, done),
        Task::Sum => join_sum(alloc, done),
        Task::Product => join_product(alloc, done),
        Task::Star => join_star(alloc, done),
    }
}

/// Makes a part without parts, or puts its parts and then their joining among the tasks.
fn visit<'a, 'p>(
    alloc: Global,
    by: &Replacement<'a>,
    p: &'p Pattern,
    tasks: &mut Stack<Task<'p>>,
    done: &mut Stack<Option<Part<'a>>>,
) -> Result<(), AllocError>
    requires { IsReplacement by.now }
    ensures outcome { OnOk result (outcome (replaced_by by.now) tasks.new (parts_view done.new)
        ≡ outcome (replaced_by by.now) tasks.old (within (subst_of (replaced_by by.now) (pattern_view p.now)) ∷ parts_view done.old)) }
    ensures less { OnOk result (work tasks.new < 2 * size_of (pattern_view p.now) + work tasks.old) }
{
    match p {
        Pattern::Zero => done.push(Some(Part::Made(Measured::zero()))),
        Pattern::One => done.push(Some(Part::Made(Measured::one()))),
        Pattern::Tag(tag) => done.push(Some(Part::Made(Measured::tag(*tag)))),
        Pattern::Var(number) => {
            let value = by.value_of(*number);
            done.push(Some(value))
        }
        Pattern::Sum(left, right) => put_parts(tasks, Task::Sum, left, right),
        Pattern::Prod(left, right) => put_parts(tasks, Task::Product, left, right),
        Pattern::Star(part) => {
            tasks.push(Task::Star)?;
            tasks.push(Task::Visit(part))
        }
    }
}

/// Puts both parts, the left one on top, and what is to be done with them then among the tasks.
fn put_parts<'p>(
    tasks: &mut Stack<Task<'p>>,
    joining: Task<'p>,
    left: &'p Pattern,
    right: &'p Pattern,
) -> Result<(), AllocError>
    ensures outcome { OnOk result ((values : ℕ → Pat) (made : List (Option Pat))
        → outcome values tasks.new made ≡ outcome values (joining.entry ∷ tasks.old)
        (within (subst_of values (pattern_view right.now)) ∷ within (subst_of values (pattern_view left.now)) ∷ made)) }
    ensures work { OnOk result (work tasks.new ≡ 2 * size_of (pattern_view left.now)
        + (2 * size_of (pattern_view right.now) + work (joining.entry ∷ tasks.old))) }
{
    tasks.push(joining)?;
    tasks.push(Task::Visit(right))?;
    tasks.push(Task::Visit(left))
}

/// A copy of the pattern, in which no variable occurs, unless it is too large.
fn kept_whole<'a>(p: &Pattern) -> Result<Option<Part<'a>>, AllocError>
    requires { (k : ℕ) → has_var k (pattern_view p.now) ≡ false }
    ensures { IfOk result (λ part. limited_view part ≡ within (pattern_view p.now)) }
{
    match measure(p.copy()?) {
        Some(copy) => Ok(Some(Part::Made(copy.without_variables()))),
        None => Ok(None),
    }
}

/// Whether so many calls, one in the other, show that the pattern stays as it is: it has no variable, and is as the simplifying forms
/// make it.
#[tactic(auto, using(crate::proofs::Staying::sum_stays, crate::proofs::Staying::prod_stays, crate::proofs::Staying::star_stays))]
fn stays(p: &Pattern, calls: u32) -> bool
    ensures { IsTrue result → Stays (pattern_view p.now) }
{
    if calls == 0 {
        return false;
    }
    match p {
        Pattern::Zero | Pattern::One | Pattern::Tag(_) => true,
        Pattern::Var(_) => false,
        Pattern::Sum(left, right) => {
            !left.is_zero()
                && !right.is_zero()
                && stays(left, calls - 1)
                && stays(right, calls - 1)
                && !left.is_same(right)
        }
        Pattern::Prod(left, right) => {
            !is_unit(left) && !is_unit(right) && stays(left, calls - 1) && stays(right, calls - 1)
        }
        Pattern::Star(part) => !is_unit(part) && stays(part, calls - 1),
    }
}

/// Whether the pattern is 0 or 1.
fn is_unit(p: &Pattern) -> bool
    ensures { result ≡ (is_zero (pattern_view p.now) || is_one (pattern_view p.now)) }
{
    p.is_zero() || p.is_one()
}
