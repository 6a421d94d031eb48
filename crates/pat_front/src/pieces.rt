// Words, offsets and places in a text that grows.
ghost use Rattle.std.specs.Prelude.{◌≡◌, ◌++◌, OnOk};
ghost use Rattle.std.specs.Fmt.{decimal};
ghost use Rattle.pat_front.specs.Lines.{place_words};

use pat_syntax::Span;
use pat_texts::push_number;
use std::alloc::AllocError;

pub fn push_words(text: &mut Vec<u8>, words: &[u8]) -> Result<(), AllocError>
    ensures { OnOk result (text.new.items ≡ text.old.items ++ words.now) }
{
    text.extend_from_slice(words)?;
    Ok(())
}

// Words, and an offset.
pub fn push_at(text: &mut Vec<u8>, words: &[u8], offset: u32) -> Result<(), AllocError>
    ensures { OnOk result (text.new.items ≡ text.old.items ++ (words.now ++ decimal offset)) }
{
    push_words(text, words)?;
    push_number(text, offset as u64)
}

// Where something stands.
pub fn push_span(text: &mut Vec<u8>, span: Span) -> Result<(), AllocError>
    ensures { OnOk result (text.new.items ≡ text.old.items ++ place_words span) }
{
    push_at(text, b" at ", span.from)?;
    push_at(text, b"-", span.to)
}
