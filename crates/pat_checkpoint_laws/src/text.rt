// That the text of a checkpoint is read as this checkpoint, that what a text is read as has this text, and that each text has one
// checkpoint, or one first line that isn't read. No code of the product.
ghost use Rattle.pat_checkpoint_laws.specs.text.Laws.{ReadIsText, ReadIsReadable, FrontIsText, ReadingIsOne, ReadOrUnread, UnreadIsOne, UnreadIsNotRead, TextIsRead, TextIsOne, UnreadIsFirst, StringsAreTokens, LinesMakeCheckpoint, CheckpointHasLines, PlainIsReadable};

/// What a text is read as has this text, and is a checkpoint that a reader takes; so is what is read up to any line.
pub fn read_is_text_law()
    ensures text { ReadIsText }
    ensures readable { ReadIsReadable }
    ensures front { FrontIsText }
{}

/// A text is read as one checkpoint, or has one first line that isn't read, and not both.
pub fn reading_is_one_law()
    ensures either { ReadOrUnread }
    ensures checkpoint { ReadingIsOne }
    ensures place { UnreadIsOne }
    ensures other { UnreadIsNotRead }
{}

/// For a resolved program the text of each checkpoint that a reader takes is read as this checkpoint. So no two of them have one text,
/// and where a line isn't read, no text of theirs goes beyond its beginning.
pub fn text_is_read_law()
    ensures read { TextIsRead }
    ensures one { TextIsOne }
    ensures first { UnreadIsFirst }
{}

/// The strings that a reader takes are those that a program's text can have.
pub fn strings_law()
    ensures { StringsAreTokens }
{}

/// A checkpoint and its lines are made of each other. So whether a reader takes it is seen from its own lists.
pub fn lines_law()
    ensures again { LinesMakeCheckpoint }
    ensures made { CheckpointHasLines }
    ensures plain { PlainIsReadable }
{}
