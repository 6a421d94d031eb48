//! Patterns within the limits on nodes and levels, and variables replaced in them.
#![tactic(auto)]

mod measured;
mod part;
mod replacing;

pub use measured::{Measured, measure};
pub use part::{Part, product, star, sum};
pub use replacing::{Replacement, derivative, find_variable, replaced, value_among};
