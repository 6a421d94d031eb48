// What waits is done once the part on its right is read.
ghost use Rattle.std.specs.Prelude.{◌≡◌, ◌∷◌, ◌<◌, length, option_and_then, Ok, Err, ◌↔◌, IsTrue};
ghost use Rattle.pat_patterns.specs.Views.{pattern_view};
ghost use Rattle.pat_derivation_text_spec.specs.patterns.PatternReading as reading;
ghost use Rattle.pat_derivation_lines.specs.patterns.Views.{op_view, ops_view, part_view, parts_view, stage_view};
ghost use Rattle.pat_derivation_lines.specs.patterns.Answers.{Gives, Leaves};

use crate::patterns::parts::{MOST_WAITING, Op, Part, Stage, product_top, star_top, sum_top};
use crate::patterns::unread::Unread;
use pat_patterns::Pattern;
use pat_sequences::Stack;
use std::alloc::{AllocError, Global};

/// Does the stars and products that waited for the part on top.
pub fn settle(alloc: Global, ops: &mut Stack<Op>, parts: &mut Stack<Part>) -> Result<(), Unread>
    ensures { Leaves (reading.settled (ops_view ops.old) (parts_view parts.old))
        (reading.having (ops_view ops.new) (parts_view parts.new)) result }
{
    loop {
        match ops.top() {
            Some(Op::Star) => star_top(alloc, parts)?,
            Some(Op::Product) => product_top(alloc, parts)?,
            _ => return Ok(()),
        }
        let _ = ops.pop();
    }
}

/// Does the sum that waited for the part on top, if one did.
pub fn add(alloc: Global, ops: &mut Stack<Op>, parts: &mut Stack<Part>) -> Result<(), Unread>
    ensures { Leaves (reading.summed (ops_view ops.old) (parts_view parts.old))
        (reading.having (ops_view ops.new) (parts_view parts.new)) result }
{
    match ops.top() {
        Some(Op::Sum) => {
            sum_top(alloc, parts)?;
            let _ = ops.pop();
            Ok(())
        }
        _ => Ok(()),
    }
}

/// The part on top stood in brackets.
fn bracket_top(parts: &mut Stack<Part>) -> Result<(), Unread>
    ensures { Leaves (reading.bracket_top (parts_view parts.old)) (parts_view parts.new) result }
{
    match parts.pop() {
        Some(part) => {
            if part.bracketed {
                return Err(Unread::NotSpelled);
            }
            parts.push(Part {
                pattern: part.pattern,
                levels: part.levels,
                bracketed: true,
            })?;
            Ok(())
        }
        None => Err(Unread::NotSpelled),
    }
}

/// Closes the bracket that was opened last.
pub fn close(alloc: Global, ops: &mut Stack<Op>, parts: &mut Stack<Part>) -> Result<(), Unread>
    ensures { Leaves (reading.bracket_closed (ops_view ops.old) (parts_view parts.old))
        (reading.having (ops_view ops.new) (parts_view parts.new)) result }
{
    match ops.pop() {
        Some(Op::Open) => {
            bracket_top(parts)?;
            settle(alloc, ops, parts)
        }
        _ => Err(Unread::NotSpelled),
    }
}
