// Tokens.
use super::mark::Mark;
use super::span::Span;
use super::word::Reserved;
use pat_sequences::Text;

/// What a token is.
#[derive(Drop)]
pub enum TokenKind {
    /// A name, by its bytes.
    Name(Text),
    /// An integer, which isn't negative.
    Integer(i64),
    /// A string, by the bytes that it stands for: without its quotes, each escaped pair as one byte.
    Str(Text),
    /// A reserved word.
    Word(Reserved),
    /// A mark.
    Mark(Mark),
}

/// A token, and where it stands.
#[derive(Drop)]
pub struct Token {
    pub kind: TokenKind,
    pub span: Span,
}
