//! That the text of a history is read as this history, that what a text is read as has this text, and that each text has one history,
//! or one first line that isn't read. No code of the product.
#![tactic(auto)]

ghost use Rattle.pat_history_laws.specs.Laws.{ReadIsText, ReadIsReadable, TextIsRead, ReadOrUnread, ReadingIsOne, UnreadIsOne, UnreadIsNotRead, UnreadIsFirst};

/// What a text is read as has this text, and is a history that a reader takes. So no entry is read whose shared act is a local step.
pub fn read_is_text_law()
    ensures text { ReadIsText }
    ensures readable { ReadIsReadable }
{}

/// The text of each history that a reader takes is read as this history, and where a line isn't read, no such text goes beyond its
/// beginning.
pub fn text_is_read_law()
    ensures read { TextIsRead }
    ensures first { UnreadIsFirst }
{}

/// A text is read as one history, or has one first line that isn't read, and not both.
pub fn reading_is_one_law()
    ensures either { ReadOrUnread }
    ensures history { ReadingIsOne }
    ensures place { UnreadIsOne }
    ensures other { UnreadIsNotRead }
{}
