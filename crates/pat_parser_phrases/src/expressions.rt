// Expressions, and the terms without blocks, read from tokens.

mod arguments;
mod expressions;
mod operands;
mod simple;

pub use simple::{TermRead, simple_term, test};
