// Copies of trees.
ghost use Rattle.std.specs.Prelude.{◌≡◌, ◌∷◌, ◌≤◌, length, IfOk, OnOk};
ghost use Rattle.pat_bags.specs.Views.{word_of};
ghost use Rattle.pat_inclusion_spec.specs.bounds.Trees.{LeftTree, RightTree, BothTree, StarMoreTree, LowerTree};
ghost use Rattle.pat_witnesses.specs.Views.{bound_view, bounds_view, joined_one, joined};

use crate::bound::Bound;
use crate::search::Refutation;
use pat_sequences::Stack;
use std::alloc::{AllocError, Global};

impl Bound {
    /// A second tree, the same.
    pub fn copy(&self, alloc: Global) -> Result<Bound, AllocError>
        ensures { IfOk result (λ b. bound_view b ≡ bound_view self.now) }
    {
        let mut done = Stack::new(alloc);
        copy_onto(alloc, self, &mut done)?;
        Ok(take_one(&mut done))
    }
}

impl Refutation {
    /// A second refutation, the same.
    pub fn copy(&self, alloc: Global) -> Result<Refutation, AllocError>
        ensures word { IfOk result (λ r. word_of r.word ≡ word_of self.now.word) }
        ensures tree { IfOk result (λ r. bound_view r.tree ≡ bound_view self.now.tree) }
    {
        let tree = self.tree.copy(alloc)?;
        Ok(Refutation {
            word: self.word,
            tree,
        })
    }
}

/// Puts a copy of the tree on the stack.
fn copy_onto(alloc: Global, b: &Bound, done: &mut Stack<Bound>) -> Result<(), AllocError>
    ensures { OnOk result (bounds_view done.new ≡ bound_view b.now ∷ bounds_view done.old) }
{
    match b {
        Bound::Empty => done.push(Bound::Empty),
        Bound::Tag => done.push(Bound::Tag),
        Bound::StarEnd => done.push(Bound::StarEnd),
        Bound::Left(part) => {
            copy_onto(alloc, part, done)?;
            join_left(alloc, done)
        }
        Bound::Right(part) => {
            copy_onto(alloc, part, done)?;
            join_right(alloc, done)
        }
        Bound::Lower(part) => {
            copy_onto(alloc, part, done)?;
            join_lower(alloc, done)
        }
        Bound::Both(first, second) => {
            copy_onto(alloc, first, done)?;
            copy_onto(alloc, second, done)?;
            join_both(alloc, done)
        }
        Bound::StarMore(first, rest) => {
            copy_onto(alloc, first, done)?;
            copy_onto(alloc, rest, done)?;
            join_star(alloc, done)
        }
    }
}

/// Takes the tree on top.
fn take_one(done: &mut Stack<Bound>) -> Bound
    requires { 1 ≤ length (bounds_view done.old) }
    ensures { bounds_view done.old ≡ bound_view result ∷ bounds_view done.new }
{
    match done.pop() {
        Some(top) => top,
        None => unreachable!(),
    }
}

/// Takes the two trees on top, the lower one first.
fn take_two(done: &mut Stack<Bound>) -> (Bound, Bound)
    requires { 2 ≤ length (bounds_view done.old) }
    ensures { bounds_view done.old ≡ bound_view result.1 ∷ bound_view result.0 ∷ bounds_view done.new }
{
    let second = take_one(done);
    let first = take_one(done);
    (first, second)
}

#[inline(never)]
fn join_left(alloc: Global, done: &mut Stack<Bound>) -> Result<(), AllocError>
    requires { 1 ≤ length (bounds_view done.old) }
    ensures { OnOk result (bounds_view done.new ≡ joined_one LeftTree (bounds_view done.old)) }
{
    let part = take_one(done);
    let tree = Bound::Left(Box::new(alloc, part)?);
    done.push(tree)
}

#[inline(never)]
fn join_right(alloc: Global, done: &mut Stack<Bound>) -> Result<(), AllocError>
    requires { 1 ≤ length (bounds_view done.old) }
    ensures { OnOk result (bounds_view done.new ≡ joined_one RightTree (bounds_view done.old)) }
{
    let part = take_one(done);
    let tree = Bound::Right(Box::new(alloc, part)?);
    done.push(tree)
}

#[inline(never)]
fn join_lower(alloc: Global, done: &mut Stack<Bound>) -> Result<(), AllocError>
    requires { 1 ≤ length (bounds_view done.old) }
    ensures { OnOk result (bounds_view done.new ≡ joined_one LowerTree (bounds_view done.old)) }
{
    let part = take_one(done);
    let tree = Bound::Lower(Box::new(alloc, part)?);
    done.push(tree)
}

#[inline(never)]
fn join_both(alloc: Global, done: &mut Stack<Bound>) -> Result<(), AllocError>
    requires { 2 ≤ length (bounds_view done.old) }
    ensures { OnOk result (bounds_view done.new ≡ joined BothTree (bounds_view done.old)) }
{
    let (first, second) = take_two(done);
    let tree = Bound::Both(Box::new(alloc, first)?, Box::new(alloc, second)?);
    done.push(tree)
}

#[inline(never)]
fn join_star(alloc: Global, done: &mut Stack<Bound>) -> Result<(), AllocError>
    requires { 2 ≤ length (bounds_view done.old) }
    ensures { OnOk result (bounds_view done.new ≡ joined StarMoreTree (bounds_view done.old)) }
{
    let (first, rest) = take_two(done);
    let tree = Bound::StarMore(Box::new(alloc, first)?, Box::new(alloc, rest)?);
    done.push(tree)
}
