// The residual: what is left of a pattern once a message is taken.
ghost use Rattle.std.specs.Prelude.{◌≡◌, ◌∷◌, ◌≤◌, ◌↔◌, length, IfOk, OnOk, List};
ghost use Rattle.pat_words_spec.specs.Words.{Word, one, plus};
ghost use Rattle.pat_words_spec.specs.Patterns.{In, Pat, sum_of, prod_of};
ghost use Rattle.pat_words_spec.specs.Patterns.{residual as residual_of};
ghost use Rattle.pat_patterns.specs.Views.{pattern_view, patterns_view, joined, joined_one};
ghost use Rattle.pat_patterns.specs.residuals.Rests.{product_rest};

use crate::joining::take_two;
use crate::{Pattern, sum, take_one};
use pat_sequences::Stack;
use std::alloc::{AllocError, Global};
use std::sync::Arc;

/// What may still come after one message with the tag was taken from what the pattern lets in: putting
/// that message back gives one of the pattern's words, and so it is for no other word.
pub fn residual(alloc: Global, p: &Pattern, tag: u8) -> Result<Pattern, AllocError>
    ensures value { IfOk result (λ rest. pattern_view rest ≡ residual_of (pattern_view p.now) tag) }
    ensures words { IfOk result (λ rest. (w : Word) → In (pattern_view rest) w ↔ In (pattern_view p.now) (plus w (one tag))) }
{
    let mut done = Stack::new(alloc);
    residual_onto(alloc, p, tag, &mut done)?;
    Ok(take_one(&mut done))
}

/// Puts the residual on the stack.
fn residual_onto(
    alloc: Global,
    p: &Pattern,
    tag: u8,
    done: &mut Stack<Pattern>,
) -> Result<(), AllocError>
    ensures { OnOk result (patterns_view done.new ≡ residual_of (pattern_view p.now) tag ∷ patterns_view done.old) }
{
    match p {
        Pattern::Zero | Pattern::One | Pattern::Var(_) => done.push(Pattern::Zero),
        Pattern::Tag(own) => push_tag_rest(*own, tag, done),
        Pattern::Sum(left, right) => {
            residual_onto(alloc, left, tag, done)?;
            residual_onto(alloc, right, tag, done)?;
            join_sum_rest(alloc, done)
        }
        Pattern::Prod(left, right) => {
            residual_onto(alloc, left, tag, done)?;
            residual_onto(alloc, right, tag, done)?;
            join_product_rest(alloc, left, right, done)
        }
        Pattern::Star(part) => {
            residual_onto(alloc, part, tag, done)?;
            join_star_rest(alloc, p, done)
        }
    }
}

fn push_tag_rest(own: u8, tag: u8, done: &mut Stack<Pattern>) -> Result<(), AllocError>
    ensures { OnOk result (patterns_view done.new ≡ residual_of (Pat.Tag own) tag ∷ patterns_view done.old) }
{
    let rest = if own == tag {
        Pattern::One
    } else {
        Pattern::Zero
    };
    done.push(rest)
}

#[inline(never)]
fn join_sum_rest(alloc: Global, done: &mut Stack<Pattern>) -> Result<(), AllocError>
    requires { 2 ≤ length (patterns_view done.old) }
    ensures { OnOk result (patterns_view done.new ≡ joined sum_of (patterns_view done.old)) }
{
    let (left, right) = take_two(done);
    let rest = sum(alloc, left, right)?;
    done.push(rest)
}

/// The two residuals on top give way to that of the product of the two parts.
#[inline(never)]
fn join_product_rest(
    alloc: Global,
    left: &Pattern,
    right: &Pattern,
    done: &mut Stack<Pattern>,
) -> Result<(), AllocError>
    requires { 2 ≤ length (patterns_view done.old) }
    ensures { OnOk result (patterns_view done.new
        ≡ joined (product_rest (pattern_view left.now) (pattern_view right.now)) (patterns_view done.old)) }
{
    let (left_rest, right_rest) = take_two(done);
    let from_left = product_with(alloc, left_rest, right)?;
    let from_right = with_product(alloc, left, right_rest)?;
    let rest = sum(alloc, from_left, from_right)?;
    done.push(rest)
}

/// The residual on top gives way to its product with the star.
#[inline(never)]
fn join_star_rest(
    alloc: Global,
    whole: &Pattern,
    done: &mut Stack<Pattern>,
) -> Result<(), AllocError>
    requires { 1 ≤ length (patterns_view done.old) }
    ensures { OnOk result (patterns_view done.new ≡ joined_one (λ rest. prod_of rest (pattern_view whole.now)) (patterns_view done.old)) }
{
    let part_rest = take_one(done);
    let rest = product_with(alloc, part_rest, whole)?;
    done.push(rest)
}

/// The product of a pattern with a part, which is copied only where it is kept.
fn product_with(alloc: Global, rest: Pattern, part: &Pattern) -> Result<Pattern, AllocError>
    ensures { IfOk result (λ p. pattern_view p ≡ prod_of (pattern_view rest) (pattern_view part.now)) }
{
    if rest.is_zero() || part.is_zero() {
        return Ok(Pattern::Zero);
    }
    if rest.is_one() {
        return part.copy();
    }
    if part.is_one() {
        return Ok(rest);
    }
    let part = part.copy()?;
    Ok(Pattern::Prod(Arc::new(alloc, rest)?, Arc::new(alloc, part)?))
}

/// The product of a part, which is copied only where it is kept, with a pattern.
fn with_product(alloc: Global, part: &Pattern, rest: Pattern) -> Result<Pattern, AllocError>
    ensures { IfOk result (λ p. pattern_view p ≡ prod_of (pattern_view part.now) (pattern_view rest)) }
{
    if part.is_zero() || rest.is_zero() {
        return Ok(Pattern::Zero);
    }
    if part.is_one() {
        return Ok(rest);
    }
    let part = part.copy()?;
    if rest.is_one() {
        return Ok(part);
    }
    Ok(Pattern::Prod(Arc::new(alloc, part)?, Arc::new(alloc, rest)?))
}
