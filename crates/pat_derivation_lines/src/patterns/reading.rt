// A pattern from its text, part by part, with what waits and what is read on stacks: nothing recurses.
ghost use Rattle.std.specs.Prelude.{◌≡◌, ◌<◌, length, Result, Ok, Err};
ghost use Rattle.pat_patterns.specs.Views.{pattern_view};
ghost use Rattle.pat_derivation_text_spec.specs.patterns.PatternReading as reading;
ghost use Rattle.pat_derivation_lines.specs.patterns.Views.{names_of, op_view, ops_view, part_view, parts_view, stage_view};
ghost use Rattle.pat_derivation_lines.specs.patterns.Answers.{Gives, Leaves, Steps};

use crate::patterns::parts::{MOST_WAITING, Op, Part, Stage};
use crate::patterns::unread::Unread;
use crate::patterns::waiting::{add, close, settle};
use crate::patterns::words::{split_word, word_pattern};
use pat_core::TagDecl;
use pat_patterns::Pattern;
use pat_sequences::Stack;
use std::alloc::Global;

/// The pattern that the text spells by these tags, if it spells one: with brackets just where they are needed, and of at most
/// 16,384 levels. A variable is `$` and its number.
pub fn read_pattern(alloc: Global, tags: &[TagDecl], text: &[u8]) -> Result<Pattern, Unread>
    ensures { Gives pattern_view (reading.read_pattern (names_of tags.now) text.now) result }
{
    let mut stage = Stage {
        wants: true,
        ops: Stack::new(alloc),
        parts: Stack::new(alloc),
    };
    let mut rest = text;
    while !rest.is_empty() {
        rest = step(alloc, tags, &mut stage, rest)?;
    }
    whole(alloc, &mut stage)
}

/// One step.
fn step<'a>(
    alloc: Global,
    tags: &[TagDecl],
    stage: &mut Stage,
    text: &'a [u8],
) -> Result<&'a [u8], Unread>
    ensures { Steps (reading.step (names_of tags.now) (stage_view stage.old) text.now) (stage_view stage.new) result }
{
    if stage.wants {
        want(alloc, tags, stage, text)
    } else {
        have(alloc, stage, text)
    }
}

/// One more waits, if they aren't too many.
fn push_op(op: Op, stage: &mut Stage) -> Result<(), Unread>
    ensures { Leaves (reading.with_op (op_view op) (stage_view stage.old)) (stage_view stage.new) result }
{
    if stage.ops.len() < MOST_WAITING {
        stage.ops.push(op)?;
        stage.wants = true;
        Ok(())
    } else {
        Err(Unread::NotSpelled)
    }
}

/// A part of one word is read.
fn push_word(alloc: Global, tags: &[TagDecl], stage: &mut Stage, word: &[u8]) -> Result<(), Unread>
    ensures { Leaves (reading.with_word (names_of tags.now) (stage_view stage.old) word.now) (stage_view stage.new) result }
{
    match word_pattern(tags, word) {
        Some(pattern) => {
            stage.parts.push(Part {
                pattern,
                levels: 1,
                bracketed: false,
            })?;
            stage.wants = false;
            settle(alloc, &mut stage.ops, &mut stage.parts)
        }
        None => Err(Unread::NotSpelled),
    }
}

/// The sum with what was read before is made, and the next part of it is wanted.
fn push_sum(alloc: Global, stage: &mut Stage) -> Result<(), Unread>
    ensures { Leaves (reading.with_sum (stage_view stage.old)) (stage_view stage.new) result }
{
    add(alloc, &mut stage.ops, &mut stage.parts)?;
    push_op(Op::Sum, stage)
}

/// A closing bracket.
fn close_bracket(alloc: Global, stage: &mut Stage) -> Result<(), Unread>
    ensures { Leaves (reading.with_bracket (stage_view stage.old)) (stage_view stage.new) result }
{
    add(alloc, &mut stage.ops, &mut stage.parts)?;
    stage.wants = false;
    close(alloc, &mut stage.ops, &mut stage.parts)
}

/// A step where a part is wanted.
fn want<'a>(
    alloc: Global,
    tags: &[TagDecl],
    stage: &mut Stage,
    text: &'a [u8],
) -> Result<&'a [u8], Unread>
    ensures { Steps (reading.want (names_of tags.now) (stage_view stage.old) text.now) (stage_view stage.new) result }
{
    match text {
        [b'(', more @ ..] => {
            push_op(Op::Open, stage)?;
            Ok(more)
        }
        [b'*', more @ ..] => {
            push_op(Op::Star, stage)?;
            Ok(more)
        }
        _ => {
            let (word, more) = split_word(text);
            push_word(alloc, tags, stage, word)?;
            Ok(more)
        }
    }
}

/// A step where a part was read.
fn have<'a>(alloc: Global, stage: &mut Stage, text: &'a [u8]) -> Result<&'a [u8], Unread>
    ensures { Steps (reading.have (stage_view stage.old) text.now) (stage_view stage.new) result }
{
    match text {
        [b'.', more @ ..] => {
            push_op(Op::Product, stage)?;
            Ok(more)
        }
        [b')', more @ ..] => {
            close_bracket(alloc, stage)?;
            Ok(more)
        }
        _ => match text.strip_prefix(b" + ") {
            Some(more) => {
                push_sum(alloc, stage)?;
                Ok(more)
            }
            None => Err(Unread::NotSpelled),
        },
    }
}

/// The pattern, where nothing waits.
fn last_part(ops: &Stack<Op>, parts: &mut Stack<Part>) -> Result<Pattern, Unread>
    ensures { Gives pattern_view (reading.pattern_whole (ops_view ops.now) (parts_view parts.old)) result }
{
    if !ops.is_empty() {
        return Err(Unread::NotSpelled);
    }
    match parts.pop() {
        Some(part) => {
            if !parts.is_empty() || part.bracketed {
                return Err(Unread::NotSpelled);
            }
            Ok(part.pattern)
        }
        None => Err(Unread::NotSpelled),
    }
}

/// The pattern at the end of the text.
fn whole(alloc: Global, stage: &mut Stage) -> Result<Pattern, Unread>
    ensures { Gives pattern_view (reading.at_end (stage_view stage.old)) result }
{
    if stage.wants {
        return Err(Unread::NotSpelled);
    }
    add(alloc, &mut stage.ops, &mut stage.parts)?;
    last_part(&stage.ops, &mut stage.parts)
}
