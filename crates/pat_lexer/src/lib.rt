//! Text in pieces to tokens.
#![tactic(auto)]

mod error;
mod fronts;
mod lexer;
mod reader;
mod unfinished;

pub use error::LexError;
pub use lexer::Lexer;
