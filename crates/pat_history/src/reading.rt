// A history from its text, line by line: the text is not copied.
ghost use Rattle.std.specs.Prelude.{◌≡◌, ◌<◌, ◌+◌, ◌^◌, length, Some};
ghost use Rattle.pat_texts_spec.specs.Joined.{cut as cut_of};
ghost use Rattle.pat_history_spec.specs.HistoryText.{marker};
ghost use Rattle.pat_history.specs.Answers.{FirstGives, Gives};

use crate::entries::read_entry;
use pat_reduce::Entry;
use pat_texts::{TextError, cut};
use std::alloc::{AllocError, Global};

/// What stands behind the first line, if it is the one that histories begin with.
fn behind_marker(text: &[u8]) -> Option<&[u8]>
    ensures { FirstGives result text.now }
{
    match cut(text, b'\n') {
        Some((line, more)) => {
            if line == b"%%history".as_slice() {
                Some(more)
            } else {
                None
            }
        }
        None => None,
    }
}

/// The history that the text spells, if it spells one: its first line, and then a line for each entry. Otherwise where the first
/// line that isn't spelled begins, counted from `from`.
pub fn read(alloc: Global, text: &[u8], from: u32) -> Result<Vec<Entry>, TextError>
    requires { from + length text.now < 2 ^ 32 }
    ensures { Gives text.now from result }
{
    match behind_marker(text) {
        Some(rest) => read_lines(alloc, text, rest, from),
        None => Err(TextError::BadText(from)),
    }
}

/// The history of all lines behind the first.
fn read_lines(alloc: Global, text: &[u8], lines: &[u8], from: u32) -> Result<Vec<Entry>, TextError>
    requires room { from + length text.now < 2 ^ 32 }
    requires first { cut_of 10 text.now ≡ Some (marker, lines.now) }
    requires within { length lines.now < length text.now + 1 }
    ensures { Gives text.now from result }
{
    let mut entries = Vec::new(alloc);
    let mut rest = lines;
    while !rest.is_empty() {
        let offset = from + (text.len() - rest.len()) as u32;
        match cut(rest, b'\n') {
            Some((line, more)) => match read_entry(line) {
                Some(entry) => match entries.push(entry) {
                    Ok(()) => rest = more,
                    Err(_) => return Err(TextError::NoMemory),
                },
                None => return Err(TextError::BadText(offset)),
            },
            None => return Err(TextError::BadText(offset)),
        }
    }
    Ok(entries)
}
