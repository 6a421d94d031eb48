// A walk down a tree, with what is left of the word.
ghost use Rattle.std.specs.Prelude.{◌≡◌, ◌↔◌, IsTrue, IfOk, Some, slice_get};
ghost use Rattle.pat_bags.specs.Views.{word_of};
ghost use Rattle.pat_patterns.specs.Views.{pattern_view, patterns_view};
ghost use Rattle.pat_inclusion_spec.specs.bounds.Trees.{bounds_of, tree_word};
ghost use Rattle.pat_witnesses.specs.Views.{bound_view};
ghost use Rattle.pat_refutations.specs.Tasks.{opened, opened_bound, Opens, Takes, Does};
ghost use Rattle.pat_refutations.specs.Views.{task_view, tasks_view};

use pat_bags::Bag;
use pat_patterns::Pattern;
use pat_sequences::Stack;
use pat_witnesses::Bound;
use std::alloc::{AllocError, Global};

/// What is still to be done on a walk.
#[derive(Clone, Copy)]
pub enum Task<'a> {
    /// To go down the tree along the pattern.
    Walk(&'a Bound, &'a Pattern),
    /// To take one message with the tag.
    Take(u8),
    /// To forget what was taken so far.
    Forget,
    /// To see that something was taken since.
    See,
}

/// Whether the tree shows the word for the pattern, where variables have the lower bounds of the system. The walk takes what the
/// tree takes off the word, so no sum is formed, and keeps what is to be done on a stack, so it may be as deep as it likes.
pub fn shows(
    alloc: Global,
    system: &[Pattern],
    tree: &Bound,
    p: &Pattern,
    word: &Bag,
) -> Result<bool, AllocError>
    ensures { IfOk result (λ yes. IsTrue yes
        ↔ (tree_word (bounds_of (patterns_view system.now)) (bound_view tree.now) (pattern_view p.now) ≡ Some (word_of word.now))) }
{
    let mut tasks = Stack::new(alloc);
    let mut left = *word;
    let mut took = false;
    tasks.push(Task::Walk(tree, p))?;
    while let Some(task) = tasks.pop() {
        if !do_task(system, task, &mut tasks, &mut left, &mut took)? {
            return Ok(false);
        }
    }
    Ok(left.is_empty())
}

/// Does the task, if it can be done; what it leaves to be done goes on top of the other tasks.
fn do_task<'a>(
    system: &'a [Pattern],
    task: Task<'a>,
    tasks: &mut Stack<Task<'a>>,
    left: &mut Bag,
    took: &mut bool,
) -> Result<bool, AllocError>
    ensures { IfOk result (λ yes. Does (patterns_view system.now) (task_view task.entry) yes (tasks_view tasks.old) took.old
        (word_of left.old) (tasks_view tasks.new) took.new (word_of left.new)) }
{
    match task {
        Task::Walk(tree, p) => open(system, tree, p, tasks),
        Task::Take(tag) => Ok(take_message(tag, left, took)),
        Task::Forget => {
            *took = false;
            Ok(true)
        }
        Task::See => Ok(*took),
    }
}

/// Takes a message with the tag off what is left, if there is one.
fn take_message(tag: u8, left: &mut Bag, took: &mut bool) -> bool
    ensures { Takes tag result (word_of left.old) took.new (word_of left.new) }
{
    if left.get(tag) == 0 {
        return false;
    }
    match left.sub(&Bag::one(tag)) {
        None => false,
        Some(rest) => {
            *left = rest;
            *took = true;
            true
        }
    }
}

/// Puts on the stack what the tree's first choice asks for, if the pattern has that choice.
fn open<'a>(
    system: &'a [Pattern],
    tree: &'a Bound,
    p: &'a Pattern,
    tasks: &mut Stack<Task<'a>>,
) -> Result<bool, AllocError>
    ensures { Opens result (opened (patterns_view system.now) (bound_view tree.now) (pattern_view p.now)) (tasks_view tasks.old)
        (tasks_view tasks.new) }
{
    match tree {
        Bound::Empty => Ok(matches!(p, Pattern::One)),
        Bound::StarEnd => Ok(matches!(p, Pattern::Star(_))),
        Bound::Tag => match p {
            Pattern::Tag(tag) => {
                tasks.push(Task::Take(*tag))?;
                Ok(true)
            }
            _ => Ok(false),
        },
        Bound::Left(part) => match p {
            Pattern::Sum(left, _) => {
                tasks.push(Task::Walk(part, left))?;
                Ok(true)
            }
            _ => Ok(false),
        },
        Bound::Right(part) => match p {
            Pattern::Sum(_, right) => {
                tasks.push(Task::Walk(part, right))?;
                Ok(true)
            }
            _ => Ok(false),
        },
        Bound::Both(first, second) => match p {
            Pattern::Prod(left, right) => {
                tasks.push(Task::Walk(second, right))?;
                tasks.push(Task::Walk(first, left))?;
                Ok(true)
            }
            _ => Ok(false),
        },
        Bound::StarMore(first, rest) => match p {
            Pattern::Star(part) => {
                tasks.push(Task::Walk(rest, p))?;
                tasks.push(Task::See)?;
                tasks.push(Task::Walk(first, part))?;
                tasks.push(Task::Forget)?;
                Ok(true)
            }
            _ => Ok(false),
        },
        Bound::Lower(part) => match p {
            Pattern::Var(number) => open_bound(system, part, *number, tasks),
            _ => Ok(false),
        },
    }
}

/// Goes on in the variable's lower bound: 0 for a variable past the end of the system.
fn open_bound<'a>(
    system: &'a [Pattern],
    part: &'a Bound,
    number: u32,
    tasks: &mut Stack<Task<'a>>,
) -> Result<bool, AllocError>
    ensures { Opens result (opened_bound (bound_view part.now) (slice_get (patterns_view system.now) number)) (tasks_view tasks.old)
        (tasks_view tasks.new) }
{
    match system.get(number as usize) {
        None => Ok(false),
        Some(bound) => {
            tasks.push(Task::Walk(part, bound))?;
            Ok(true)
        }
    }
}
