//! Reading the text of a program from a source: its tokens, or why there are none.
#![tactic(auto)]

mod reading;
mod whole;

pub use reading::{Input, InputError, LIMIT, read_tokens};
pub use whole::{WHOLE_LIMIT, lex_bytes, read_bytes};
