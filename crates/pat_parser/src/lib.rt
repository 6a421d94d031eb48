//! Tokens to trees.
#![tactic(auto)]

mod ends;
mod parsing;
mod states;
mod terms;

pub use parsing::parse;
pub use pat_parser_phrases::ParseError;
