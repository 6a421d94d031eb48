//! Checkpoints, as text.
#![tactic(auto)]

mod atoms;
mod lines;
mod places;
mod printing;
mod values;

pub use printing::print;
