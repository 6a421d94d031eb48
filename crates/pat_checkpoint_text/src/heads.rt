// The next numbers, and certificates at the ends of lines.
ghost use Rattle.std.specs.Prelude.{◌≡◌};
ghost use Rattle.pat_checkpoint_data.specs.Views.{end_view};
ghost use Rattle.pat_checkpoint_spec.specs.text.LineReading as reading;
ghost use Rattle.pat_checkpoint_text.specs.Views.{next_view, split_view};
ghost use Rattle.pat_derivation_lines.specs.patterns.Answers.{Gives};
ghost use Rattle.pat_texts.specs.Pieces.{pair_seen};

use pat_derivation_lines::{Unread, number_of, read_cert};
use pat_derivations::Cert;
use pat_texts::{behind, cut};
use std::alloc::Global;

/// The numbers of the next thread, mailbox and message.
#[derive(Clone, Copy)]
pub struct NextNumbers {
    pub thread: u32,
    pub mailbox: u32,
    pub message: u32,
}

/// The next numbers.
pub fn read_next(text: &[u8]) -> Result<NextNumbers, Unread>
    ensures { Gives next_view (reading.read_next text.now) result }
{
    match behind(text, b"next ") {
        Some(more) => match cut(more, b' ') {
            Some((first, others)) => {
                let thread = number_of(first)?;
                match cut(others, b' ') {
                    Some((second, third)) => {
                        let mailbox = number_of(second)?;
                        let message = number_of(third)?;
                        Ok(NextNumbers {
                            thread,
                            mailbox,
                            message,
                        })
                    }
                    None => Err(Unread::NotSpelled),
                }
            }
            None => Err(Unread::NotSpelled),
        },
        None => Err(Unread::NotSpelled),
    }
}

/// A certificate behind a space, or none at the end of a line.
pub fn read_cert_end(alloc: Global, text: &[u8]) -> Result<Option<Cert>, Unread>
    ensures { Gives end_view (reading.read_cert_end text.now) result }
{
    if text.is_empty() {
        return Ok(None);
    }
    match behind(text, b" ") {
        Some(more) => {
            let cert = read_cert(alloc, more)?;
            Ok(Some(cert))
        }
        None => Err(Unread::NotSpelled),
    }
}

/// What stands before a cut, and the certificate behind it; or all, and none.
pub fn with_cert<'a>(
    alloc: Global,
    text: &'a [u8],
    parts: Option<(&'a [u8], &'a [u8])>,
) -> Result<(&'a [u8], Option<Cert>), Unread>
    ensures { Gives split_view (reading.with_cert text.now (pair_seen parts.entry)) result }
{
    match parts {
        None => Ok((text, None)),
        Some((own, more)) => {
            let cert = read_cert(alloc, more)?;
            Ok((own, Some(cert)))
        }
    }
}
