//! Small programs that are known to be typable, for tests of the machine and of workers.
#![tactic(auto)]

mod programs;

pub use programs::{Example, accepted, one_message, turned};
