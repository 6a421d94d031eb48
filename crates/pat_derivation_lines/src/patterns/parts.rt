// Parts of a pattern that are read, and what waits for a part on its right.
//
// Both stand on stacks, so nothing here recurses, however deep the pattern.
ghost use Rattle.std.specs.Prelude.{◌≡◌, ◌+◌, max};
ghost use Rattle.pat_patterns.specs.Views.{pattern_view};
ghost use Rattle.pat_texts_spec.specs.Fronts.{agree as agree_of};
ghost use Rattle.pat_derivation_text_spec.specs.patterns.PatternText.{is_sum, is_sum_or_product};
ghost use Rattle.pat_derivation_text_spec.specs.patterns.PatternReading as reading;
ghost use Rattle.pat_derivation_lines.specs.patterns.Views.{part_view, parts_view, ops_view, stage_view};
ghost use Rattle.pat_derivation_lines.specs.patterns.Answers.{Gives, Leaves};

use crate::patterns::unread::Unread;
use pat_limits::MOST_LEVELS;
use pat_patterns::Pattern;
use pat_sequences::Stack;
use std::alloc::Global;
use std::sync::Arc;

/// The most that may wait: each takes a level, or brackets round a part that has one.
pub const MOST_WAITING: usize = 32768;

/// What waits for a part on its right.
#[derive(Clone, Copy, Debug)]
pub enum Op {
    Star,
    /// An opened bracket.
    Open,
    /// A sum with its left side.
    Sum,
    /// A product with its left side.
    Product,
}

/// A part that is read.
#[derive(Drop)]
pub struct Part {
    pub pattern: Pattern,
    pub levels: u32,
    /// Whether it stood in brackets.
    pub bracketed: bool,
}

/// What is read so far.
#[derive(Drop)]
pub struct Stage {
    /// Whether a part is wanted next.
    pub wants: bool,
    pub ops: Stack<Op>,
    pub parts: Stack<Part>,
}

/// Whether both are so, or neither.
fn agree(one: bool, other: bool) -> bool
    ensures { result ≡ agree_of one other }
{
    if one { other } else { !other }
}

fn is_sum(pattern: &Pattern) -> bool
    ensures { result ≡ is_sum (pattern_view pattern.now) }
{
    matches!(pattern, Pattern::Sum(..))
}

fn is_sum_or_product(pattern: &Pattern) -> bool
    ensures { result ≡ is_sum_or_product (pattern_view pattern.now) }
{
    matches!(pattern, Pattern::Sum(..) | Pattern::Prod(..))
}

/// A part without brackets, one level above those below it, if it has no more levels than are taken.
fn part_over(pattern: Pattern, below: u32) -> Result<Part, Unread>
    ensures { Gives part_view (reading.part_of (pattern_view pattern) (1 + below)) result }
{
    if below < MOST_LEVELS {
        Ok(Part {
            pattern,
            levels: 1 + below,
            bracketed: false,
        })
    } else {
        Err(Unread::NotSpelled)
    }
}

fn star_part(alloc: Global, part: Part) -> Result<Part, Unread>
    ensures { Gives part_view (reading.star_part (part_view part)) result }
{
    if agree(part.bracketed, is_sum_or_product(&part.pattern)) {
        let star = Pattern::Star(Arc::new(alloc, part.pattern)?);
        part_over(star, part.levels)
    } else {
        Err(Unread::NotSpelled)
    }
}

fn product_part(alloc: Global, left: Part, right: Part) -> Result<Part, Unread>
    ensures { Gives part_view (reading.product_part (part_view left) (part_view right)) result }
{
    if agree(left.bracketed, is_sum(&left.pattern))
        && agree(right.bracketed, is_sum_or_product(&right.pattern))
    {
        let below = left.levels.max(right.levels);
        let product = Pattern::Prod(
            Arc::new(alloc, left.pattern)?,
            Arc::new(alloc, right.pattern)?,
        );
        part_over(product, below)
    } else {
        Err(Unread::NotSpelled)
    }
}

fn sum_part(alloc: Global, left: Part, right: Part) -> Result<Part, Unread>
    ensures { Gives part_view (reading.sum_part (part_view left) (part_view right)) result }
{
    if !left.bracketed && agree(right.bracketed, is_sum(&right.pattern)) {
        let below = left.levels.max(right.levels);
        let sum = Pattern::Sum(
            Arc::new(alloc, left.pattern)?,
            Arc::new(alloc, right.pattern)?,
        );
        part_over(sum, below)
    } else {
        Err(Unread::NotSpelled)
    }
}

/// Puts the part on top under a star.
pub fn star_top(alloc: Global, parts: &mut Stack<Part>) -> Result<(), Unread>
    ensures { Leaves (reading.star_top (parts_view parts.old)) (parts_view parts.new) result }
{
    match parts.pop() {
        Some(part) => {
            let star = star_part(alloc, part)?;
            parts.push(star)?;
            Ok(())
        }
        None => Err(Unread::NotSpelled),
    }
}

/// Makes a product of the two parts on top, the lower one first.
pub fn product_top(alloc: Global, parts: &mut Stack<Part>) -> Result<(), Unread>
    ensures { Leaves (reading.product_top (parts_view parts.old)) (parts_view parts.new) result }
{
    match parts.pop() {
        Some(right) => match parts.pop() {
            Some(left) => {
                let product = product_part(alloc, left, right)?;
                parts.push(product)?;
                Ok(())
            }
            None => Err(Unread::NotSpelled),
        },
        None => Err(Unread::NotSpelled),
    }
}

/// Makes a sum of the two parts on top, the lower one first.
pub fn sum_top(alloc: Global, parts: &mut Stack<Part>) -> Result<(), Unread>
    ensures { Leaves (reading.sum_top (parts_view parts.old)) (parts_view parts.new) result }
{
    match parts.pop() {
        Some(right) => match parts.pop() {
            Some(left) => {
                let sum = sum_part(alloc, left, right)?;
                parts.push(sum)?;
                Ok(())
            }
            None => Err(Unread::NotSpelled),
        },
        None => Err(Unread::NotSpelled),
    }
}
