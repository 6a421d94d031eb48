//! Programs that may run.
#![tactic(auto)]

mod accepted;

pub use accepted::Accepted;
