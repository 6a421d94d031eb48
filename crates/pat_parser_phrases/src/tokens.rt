// The tokens that a text still has, as the parser takes them, and why it refuses one.

mod fault;
mod tokens;

pub use fault::{ParseError, has_room};
pub use tokens::{Tokens, is_mark};
