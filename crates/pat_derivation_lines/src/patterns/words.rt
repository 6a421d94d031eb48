// Numbers and names at the front of a text.
ghost use Rattle.std.specs.Prelude.{◌≡◌, ◌<◌, option_map};
ghost use Rattle.pat_patterns.specs.Views.{pattern_view};
ghost use Rattle.pat_texts_spec.specs.Numbers as numbers;
ghost use Rattle.pat_derivation_text_spec.specs.patterns.PatternText.{is_mark as is_mark_of};
ghost use Rattle.pat_derivation_text_spec.specs.patterns.PatternReading as reading;
ghost use Rattle.pat_derivation_lines.specs.patterns.Views.{names_of};

use pat_core::TagDecl;
use pat_patterns::Pattern;
use pat_texts::read_number;

/// Whether the byte ends a name in a pattern.
fn is_mark(byte: u8) -> bool
    ensures { result ≡ is_mark_of byte }
{
    byte == b'(' || byte == b')' || byte == b'*' || byte == b'.' || byte == b' '
}

/// The bytes up to the first mark, and the rest.
pub fn split_word(text: &[u8]) -> (&[u8], &[u8])
    ensures front { result.0.now ≡ reading.word_front text.now }
    ensures rest { result.1.now ≡ reading.word_rest text.now }
{
    for (i, byte) in text.iter().enumerate() {
        if is_mark(*byte) {
            return text.split_at(i);
        }
    }
    text.split_at(text.len())
}

/// The place of the tag with this name.
pub fn place_of(tags: &[TagDecl], name: &[u8]) -> Option<usize>
    ensures { result ≡ reading.place_of name.now (names_of tags.now) }
{
    for (i, tag) in tags.iter().enumerate() {
        if tag.name.as_bytes() == name {
            return Some(i);
        }
    }
    None
}

/// The pattern of one word: 0, 1, a variable or a tag.
pub fn word_pattern(tags: &[TagDecl], word: &[u8]) -> Option<Pattern>
    ensures { option_map pattern_view result ≡ reading.word_pattern (names_of tags.now) word.now }
{
    match word {
        [] => None,
        [b'$', digits @ ..] => match read_number(digits) {
            Some(number) => Some(Pattern::Var(number)),
            None => None,
        },
        [b'0'] => Some(Pattern::Zero),
        [b'1'] => Some(Pattern::One),
        _ => match place_of(tags, word) {
            Some(place) if place < 256 => Some(Pattern::Tag(place as u8)),
            _ => None,
        },
    }
}
