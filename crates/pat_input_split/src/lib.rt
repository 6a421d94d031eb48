//! Inputs of two parts: a program, and behind it a marked text.
#![tactic(auto)]

mod laws;
mod program_with_text;
mod splitting;

pub use laws::split_law;
pub use program_with_text::{program_before, program_law};
pub use splitting::place_of_mark;
