// A derivation from its text, line by line: the text is not copied.
ghost use Rattle.std.specs.Prelude.{◌≡◌, ◌<◌, ◌+◌, ◌^◌, length};
ghost use Rattle.pat_core.specs.Views.{program_view};
ghost use Rattle.pat_derivations.specs.Views.{derivation_view};
ghost use Rattle.pat_derivation_text_spec.specs.DerivationText.{marker};
ghost use Rattle.pat_derivation_text_spec.specs.Reading.{ReadsTo, no_lines};
ghost use Rattle.pat_deriv.specs.Answers.{FirstGives, Gives};
ghost use Rattle.pat_limits.specs.Limits.{number_count};

use crate::nodes::read_line;
use pat_core::Program;
use pat_derivation_lines::{InterfaceNames, Unread};
use pat_derivations::Derivation;
use pat_sequences::Sequence;
use pat_texts::{TextError, cut};
use std::alloc::Global;

/// What stands behind the first line, if it is the one that derivations begin with.
fn behind_marker(text: &[u8]) -> Option<&[u8]>
    ensures { FirstGives result text.now }
{
    match cut(text, b'\n') {
        Some((line, more)) => {
            if line == b"%%derivation".as_slice() {
                Some(more)
            } else {
                None
            }
        }
        None => None,
    }
}

/// The derivation that the text spells, if it spells one of the program: its first line, and then a line for each variable and each
/// node. Otherwise where the first line that isn't spelled begins, counted from `from`.
pub fn read(
    alloc: Global,
    program: &Program,
    text: &[u8],
    from: u32,
) -> Result<Derivation, TextError>
    requires interfaces { length program.now.interfaces < number_count }
    requires room { from + length text.now < 2 ^ 32 }
    ensures { Gives (program_view program.now) text.now from result }
{
    match behind_marker(text) {
        Some(rest) => match InterfaceNames::of(alloc, program) {
            Ok(names) => read_lines(alloc, &names, text, rest, from),
            Err(_) => Err(TextError::NoMemory),
        },
        None => Err(TextError::BadText(from)),
    }
}

/// The derivation of all lines behind the first.
fn read_lines(
    alloc: Global,
    names: &InterfaceNames,
    text: &[u8],
    lines: &[u8],
    from: u32,
) -> Result<Derivation, TextError>
    requires room { from + length text.now < 2 ^ 32 }
    requires first { ReadsTo (program_view names.now.program.now) text.now no_lines lines.now }
    requires within { length lines.now < length text.now + 1 }
    ensures { Gives (program_view names.now.program.now) text.now from result }
{
    let mut d = Derivation {
        vars: Sequence::new(alloc),
        nodes: Sequence::new(alloc),
    };
    let mut rest = lines;
    while !rest.is_empty() {
        let offset = from + (text.len() - rest.len()) as u32;
        match cut(rest, b'\n') {
            Some((line, more)) => match read_line(alloc, names, &mut d, line) {
                Ok(()) => rest = more,
                Err(Unread::NotSpelled) => return Err(TextError::BadText(offset)),
                Err(Unread::NoMemory) => return Err(TextError::NoMemory),
            },
            None => return Err(TextError::BadText(offset)),
        }
    }
    Ok(d)
}
