// Substitution of patterns for variables.
ghost use Rattle.std.specs.Prelude.{◌≡◌, ◌∷◌, ◌≤◌, ◌↔◌, length, IfOk, OnOk, IsTrue};
ghost use Rattle.pat_words_spec.specs.Words.{Word};
ghost use Rattle.pat_words_spec.specs.Patterns.{In, Pat, sum_of, prod_of, star_of, subst_of};
ghost use Rattle.pat_words_spec.specs.Substitutions.{InWith, has_values};
ghost use Rattle.pat_patterns.specs.Views.{pattern_view, patterns_view, joined, joined_one, value_at};

use crate::building::{product, star, sum};
use crate::joining::{take_one, take_two};
use crate::pattern::Pattern;
use pat_sequences::Stack;
use std::alloc::{AllocError, Global};

/// The pattern with each variable replaced by the value at its place, counted from 0, all by the
/// simplifying forms. Its words are those of the pattern, where each variable has the words of its value.
pub fn subst(alloc: Global, p: &Pattern, values: &[Pattern]) -> Result<Pattern, AllocError>
    requires { IsTrue (has_values (length values.now) (pattern_view p.now)) }
    ensures value { IfOk result (λ q. pattern_view q ≡ subst_of (value_at (patterns_view values.now)) (pattern_view p.now)) }
    ensures words { IfOk result (λ q. (w : Word)
        → In (pattern_view q) w ↔ InWith (value_at (patterns_view values.now)) (pattern_view p.now) w) }
{
    let mut done = Stack::new(alloc);
    subst_onto(alloc, p, values, &mut done)?;
    Ok(take_one(&mut done))
}

/// Puts the pattern with its variables replaced on the stack.
fn subst_onto(
    alloc: Global,
    p: &Pattern,
    values: &[Pattern],
    done: &mut Stack<Pattern>,
) -> Result<(), AllocError>
    requires { IsTrue (has_values (length values.now) (pattern_view p.now)) }
    ensures { OnOk result (patterns_view done.new ≡ subst_of (value_at (patterns_view values.now)) (pattern_view p.now)
        ∷ patterns_view done.old) }
{
    match p {
        Pattern::Zero => done.push(Pattern::Zero),
        Pattern::One => done.push(Pattern::One),
        Pattern::Tag(tag) => done.push(Pattern::Tag(*tag)),
        Pattern::Var(number) => done.push(values[*number as usize].copy()?),
        Pattern::Sum(left, right) => {
            subst_onto(alloc, left, values, done)?;
            subst_onto(alloc, right, values, done)?;
            join_sum(alloc, done)
        }
        Pattern::Prod(left, right) => {
            subst_onto(alloc, left, values, done)?;
            subst_onto(alloc, right, values, done)?;
            join_product(alloc, done)
        }
        Pattern::Star(part) => {
            subst_onto(alloc, part, values, done)?;
            join_star(alloc, done)
        }
    }
}

#[inline(never)]
fn join_sum(alloc: Global, done: &mut Stack<Pattern>) -> Result<(), AllocError>
    requires { 2 ≤ length (patterns_view done.old) }
    ensures { OnOk result (patterns_view done.new ≡ joined sum_of (patterns_view done.old)) }
{
    let (left, right) = take_two(done);
    let node = sum(alloc, left, right)?;
    done.push(node)
}

#[inline(never)]
fn join_product(alloc: Global, done: &mut Stack<Pattern>) -> Result<(), AllocError>
    requires { 2 ≤ length (patterns_view done.old) }
    ensures { OnOk result (patterns_view done.new ≡ joined prod_of (patterns_view done.old)) }
{
    let (left, right) = take_two(done);
    let node = product(alloc, left, right)?;
    done.push(node)
}

#[inline(never)]
fn join_star(alloc: Global, done: &mut Stack<Pattern>) -> Result<(), AllocError>
    requires { 1 ≤ length (patterns_view done.old) }
    ensures { OnOk result (patterns_view done.new ≡ joined_one star_of (patterns_view done.old)) }
{
    let part = take_one(done);
    let node = star(alloc, part)?;
    done.push(node)
}
