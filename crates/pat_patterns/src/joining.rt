// Patterns on a stack: those on top taken, and made one.
ghost use Rattle.std.specs.Prelude.{◌≡◌, ◌∷◌, ◌≤◌, length, OnOk};
ghost use Rattle.pat_words_spec.specs.Patterns.{Sum, Prod, Star};
ghost use Rattle.pat_patterns.specs.Views.{pattern_view, patterns_view, joined, joined_one};

use crate::pattern::Pattern;
use pat_sequences::Stack;
use std::alloc::{AllocError, Global};
use std::sync::Arc;

/// Takes the pattern on top.
pub fn take_one(done: &mut Stack<Pattern>) -> Pattern
    requires { 1 ≤ length (patterns_view done.old) }
    ensures { patterns_view done.old ≡ pattern_view result ∷ patterns_view done.new }
{
    match done.pop() {
        Some(top) => top,
        None => unreachable!(),
    }
}

/// Takes the two patterns on top, the lower one first.
pub fn take_two(done: &mut Stack<Pattern>) -> (Pattern, Pattern)
    requires { 2 ≤ length (patterns_view done.old) }
    ensures { patterns_view done.old ≡ pattern_view result.1 ∷ pattern_view result.0 ∷ patterns_view done.new }
{
    let right = take_one(done);
    let left = take_one(done);
    (left, right)
}

/// Makes the two patterns on top their sum.
#[inline(never)]
pub fn join_sum(alloc: Global, done: &mut Stack<Pattern>) -> Result<(), AllocError>
    requires { 2 ≤ length (patterns_view done.old) }
    ensures { OnOk result (patterns_view done.new ≡ joined Sum (patterns_view done.old)) }
{
    let (left, right) = take_two(done);
    let node = Pattern::Sum(Arc::new(alloc, left)?, Arc::new(alloc, right)?);
    done.push(node)
}

/// Makes the two patterns on top their product.
#[inline(never)]
pub fn join_product(alloc: Global, done: &mut Stack<Pattern>) -> Result<(), AllocError>
    requires { 2 ≤ length (patterns_view done.old) }
    ensures { OnOk result (patterns_view done.new ≡ joined Prod (patterns_view done.old)) }
{
    let (left, right) = take_two(done);
    let node = Pattern::Prod(Arc::new(alloc, left)?, Arc::new(alloc, right)?);
    done.push(node)
}

/// Makes the pattern on top its star.
#[inline(never)]
pub fn join_star(alloc: Global, done: &mut Stack<Pattern>) -> Result<(), AllocError>
    requires { 1 ≤ length (patterns_view done.old) }
    ensures { OnOk result (patterns_view done.new ≡ joined_one Star (patterns_view done.old)) }
{
    let part = take_one(done);
    let node = Pattern::Star(Arc::new(alloc, part)?);
    done.push(node)
}
