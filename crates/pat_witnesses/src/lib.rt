//! Refutations: words with the trees that show them, as code has them.
#![tactic(auto)]

mod bound;
mod copying;
mod search;

pub use bound::Bound;
pub use search::{Refutation, Search};
