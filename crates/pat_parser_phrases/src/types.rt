// Patterns and types, read by descent: each function takes the first token of its phrase.

mod patterns;
mod types;

pub use patterns::{PatternRead, pattern};
pub use types::{TypeRead, written_type};
