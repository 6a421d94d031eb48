// A checkpoint from its text, line by line: the text is not copied.
ghost use Rattle.std.specs.Prelude.{◌≡◌, ◌<◌, ◌+◌, ◌^◌, length, Some};
ghost use Rattle.pat_checkpoint_spec.specs.text.CheckpointText.{marker};
ghost use Rattle.pat_checkpoint_text.specs.Answers.{FirstGives, Gives};
ghost use Rattle.pat_checkpoint_text.specs.Gathered.{IsReadTo};
ghost use Rattle.pat_core.specs.Views.{program_view};
ghost use Rattle.pat_limits.specs.Limits.{number_count};
ghost use Rattle.pat_texts_spec.specs.Joined.{cut as cut_of};

use crate::gathering::{read_line, start};
use crate::heads::read_next;
use pat_checkpoint_data::Checkpoint;
use pat_core::Program;
use pat_derivation_lines::Unread;
use pat_texts::{TextError, cut};
use std::alloc::Global;

// The marker stands as a literal, since the contract spells it; so each kind of text has a function for its own.
/// What stands behind the first line, if it is the one that checkpoints begin with.
fn behind_marker(text: &[u8]) -> Option<&[u8]>
    ensures { FirstGives result text.now }
{
    match cut(text, b'\n') {
        Some((line, more)) => {
            if line == b"%%checkpoint".as_slice() {
                Some(more)
            } else {
                None
            }
        }
        None => None,
    }
}

/// The checkpoint that the text spells, if it spells one of the program: its first line, the next numbers, and then a line for each
/// live mailbox, for each pending message, and for each thread, with one for each of its frames. Otherwise where the first line that
/// isn't spelled begins, counted from `from`; where the text ends before its next numbers, that is its end.
pub fn read(
    alloc: Global,
    program: &Program,
    text: &[u8],
    from: u32,
) -> Result<Checkpoint, TextError>
    requires interfaces { length program.now.interfaces < number_count }
    requires room { from + length text.now < 2 ^ 32 }
    ensures { Gives (program_view program.now) text.now from result }
{
    match behind_marker(text) {
        Some(body) => read_body(alloc, program, text, body, from),
        None => Err(TextError::BadText(from)),
    }
}

/// The checkpoint of what stands behind the first line.
fn read_body(
    alloc: Global,
    program: &Program,
    text: &[u8],
    body: &[u8],
    from: u32,
) -> Result<Checkpoint, TextError>
    requires interfaces { length program.now.interfaces < number_count }
    requires room { from + length text.now < 2 ^ 32 }
    requires first { cut_of 10 text.now ≡ Some (marker, body.now) }
    requires within { length body.now < length text.now }
    ensures { Gives (program_view program.now) text.now from result }
{
    let offset = from + (text.len() - body.len()) as u32;
    match cut(body, b'\n') {
        Some((line, rest)) => match read_next(line) {
            Ok(next) => read_lines(alloc, program, text, rest, start(alloc, next), from),
            Err(Unread::NotSpelled) => Err(TextError::BadText(offset)),
            Err(Unread::NoMemory) => Err(TextError::NoMemory),
        },
        None => Err(TextError::BadText(offset)),
    }
}

/// The checkpoint of all lines behind the next numbers.
fn read_lines(
    alloc: Global,
    program: &Program,
    text: &[u8],
    lines: &[u8],
    next: Checkpoint,
    from: u32,
) -> Result<Checkpoint, TextError>
    requires interfaces { length program.now.interfaces < number_count }
    requires room { from + length text.now < 2 ^ 32 }
    requires read { IsReadTo (program_view program.now) text.now next lines.now }
    requires within { length lines.now < length text.now + 1 }
    ensures { Gives (program_view program.now) text.now from result }
{
    let mut x = next;
    let mut rest = lines;
    while !rest.is_empty() {
        let offset = from + (text.len() - rest.len()) as u32;
        match cut(rest, b'\n') {
            Some((line, more)) => match read_line(alloc, program, &mut x, line) {
                Ok(()) => rest = more,
                Err(Unread::NotSpelled) => return Err(TextError::BadText(offset)),
                Err(Unread::NoMemory) => return Err(TextError::NoMemory),
            },
            None => return Err(TextError::BadText(offset)),
        }
    }
    Ok(x)
}
