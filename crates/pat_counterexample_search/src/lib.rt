//! The search for a refutation: by one table for the system and both sides, from which a least tree is rebuilt.
#![tactic(auto)]

mod choice;
mod choosing;
mod pairs;
mod reading;
mod rebuilding;
mod searching;

pub use reading::{is_large, read_answer};
pub use searching::refute;
