// Names and patterns.
use pat_sequences::Text;
use pat_syntax::Span;

/// A name, and where it stands.
#[derive(Drop)]
pub struct Name {
    pub text: Text,
    pub span: Span,
}

/// A pattern as it is written.
#[derive(Drop)]
pub enum TreePattern {
    Zero(Span),
    One(Span),
    Tag(Name),
    Sum(Box<TreePattern>, Box<TreePattern>),
    Prod(Box<TreePattern>, Box<TreePattern>),
    Star(Box<TreePattern>),
}
