//! What nests no deeper than the limit, read by functions that call one another.
#![tactic(auto)]

mod declarations;
mod expressions;
mod tokens;
mod types;

pub use declarations::{FunctionSignature, interface, signature};
pub use expressions::{TermRead, simple_term, test};
pub use tokens::{ParseError, Tokens, has_room, is_mark};
pub use types::{PatternRead, pattern};
