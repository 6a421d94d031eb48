//! Spans, reserved words, marks and tokens.
#![tactic(auto)]

mod mark;
mod span;
mod token;
mod word;

pub use mark::Mark;
pub use span::Span;
pub use token::{Token, TokenKind};
pub use word::Reserved;
