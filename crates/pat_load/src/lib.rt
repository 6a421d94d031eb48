//! The program that `load` runs.
#![tactic(auto)]

mod program;

pub use program::program_text;
