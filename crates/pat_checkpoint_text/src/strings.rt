// Strings.
ghost use Rattle.std.specs.Prelude.{◌≡◌, ◌==◌, ◌||◌, false};
ghost use Rattle.pat_lexer_spec.specs.Characters.{is_plain as is_plain_byte};
ghost use Rattle.pat_checkpoint_text.specs.Takings.{Takes};
ghost use Rattle.pat_reduce_values.specs.ValueViews.{value_view};
ghost use Rattle.pat_checkpoint_spec.specs.text.ValueReading as reading;
ghost use Rattle.pat_derivation_lines.specs.patterns.Answers.{Gives};

use pat_derivation_lines::Unread;
use pat_reduce::Value;
use pat_sequences::{Sequence, Text};
use pat_texts::before;
use std::alloc::Global;

/// Whether the byte may stand behind a backslash.
fn is_special(byte: u8) -> bool
    ensures { result ≡ (byte == 34 || byte == 92) }
{
    byte == b'"' || byte == b'\\'
}

/// Whether the byte stands for itself.
fn is_plain(byte: u8) -> bool
    ensures { result ≡ is_plain_byte byte }
{
    byte >= b' ' && byte != b'"' && byte != b'\\'
}

/// Takes a byte of those between quotes, and says whether the next one stands behind a backslash.
fn take(own: &mut Sequence<u8>, escaped: bool, byte: u8) -> Result<bool, Unread>
    ensures { Takes own.old escaped byte own.new result }
{
    if escaped {
        if is_special(byte) {
            own.push(byte)?;
            return Ok(false);
        }
        return Err(Unread::NotSpelled);
    }
    if byte == b'\\' {
        return Ok(true);
    }
    if is_plain(byte) {
        own.push(byte)?;
        return Ok(false);
    }
    Err(Unread::NotSpelled)
}

/// What the bytes between quotes stand for.
fn unquoted(alloc: Global, raw: &[u8]) -> Result<Sequence<u8>, Unread>
    ensures { Gives (λ s. s) (reading.unquoted false raw.now) result }
{
    let mut own = Sequence::new(alloc);
    let mut escaped = false;
    for byte in raw {
        match take(&mut own, escaped, *byte) {
            Ok(next) => escaped = next,
            Err(Unread::NotSpelled) => return Err(Unread::NotSpelled),
            Err(Unread::NoMemory) => return Err(Unread::NoMemory),
        }
    }
    if escaped {
        return Err(Unread::NotSpelled);
    }
    Ok(own)
}

/// Only UTF-8 makes a string.
fn read_quoted(alloc: Global, raw: &[u8]) -> Result<Sequence<u8>, Unread>
    ensures { Gives (λ s. s) (reading.read_quoted raw.now) result }
{
    match str::from_utf8(raw) {
        Ok(_) => unquoted(alloc, raw),
        Err(_) => Err(Unread::NotSpelled),
    }
}

/// The string behind its first quote.
pub fn read_string(alloc: Global, text: &[u8]) -> Result<Value, Unread>
    ensures { Gives value_view (reading.read_string text.now) result }
{
    match before(text, b"\"") {
        Some(raw) => {
            let own = read_quoted(alloc, raw)?;
            let string = Text::from_slice(alloc, own.as_slice())?;
            Ok(Value::Str(string))
        }
        None => Err(Unread::NotSpelled),
    }
}
