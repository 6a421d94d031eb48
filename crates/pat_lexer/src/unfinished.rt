// What the bytes read so far leave unfinished.

/// The piece that the bytes read so far leave unfinished.
#[derive(Clone, Copy, Debug, PartialEq, Eq)]
pub enum Unfinished {
    /// No piece, or a character that may begin one.
    Nothing,
    Name,
    Integer,
    Str,
    /// A string, behind a backslash.
    Escape,
    /// `=`, which may become `==`.
    Equals,
    /// `-`, which may become `->`.
    Minus,
    /// `/`, which must become a comment.
    Slash,
    Comment,
}
