// The marks.

/// A mark.
#[derive(Clone, Copy, Debug, PartialEq, Eq)]
pub enum Mark {
    /// `(`
    RoundOpen,
    /// `)`
    RoundClose,
    /// `{`
    CurlyOpen,
    /// `}`
    CurlyClose,
    /// `[`
    SquareOpen,
    /// `]`
    SquareClose,
    /// `,`
    Comma,
    /// `;`
    Semicolon,
    /// `:`
    Colon,
    /// `.`
    Dot,
    /// `+`
    Plus,
    /// `-`
    Minus,
    /// `*`
    Star,
    /// `<`
    Less,
    /// `!`
    Bang,
    /// `?`
    Question,
    /// `=`
    Equals,
    /// `==`
    DoubleEquals,
    /// `->`
    Arrow,
}
