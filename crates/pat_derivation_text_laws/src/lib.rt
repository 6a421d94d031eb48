//! Laws of the texts of derivations and patterns: each is read as what it was written from. No code of the product.
#![tactic(auto)]

ghost use Rattle.pat_derivation_text_laws.specs.Laws.{ReadIsText, ReadingIsOne, ReadIsReadable, TextIsRead, TextIsOne, UnreadIsFirst};

mod patterns;

use crate::patterns::pattern_text_laws;
pub use patterns::number_text_laws;

/// What a text is read as has this text.
pub fn read_is_text_law()
    ensures { ReadIsText }
{}

/// A text is read as one derivation at most.
pub fn reading_is_one_law()
    ensures { ReadingIsOne }
{}

/// For a resolved program the text of each derivation that a reader takes is read as this derivation, and nothing else is read, up to any
/// line. So no two of them have one text, and where a line isn't read, no text of theirs goes beyond its beginning.
pub fn text_is_read_law()
    ensures read { TextIsRead }
    ensures only { ReadIsReadable }
    ensures one { TextIsOne }
    ensures first { UnreadIsFirst }
{
    pattern_text_laws();
}
