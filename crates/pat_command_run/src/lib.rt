//! `run`: what it may answer on the bytes that were read, and the function that answers; and `load`, the run of a generated program.
#![tactic(auto)]

mod command;
mod load;

pub use command::{Detail, answer_run};
pub use load::answer_load;
pub use pat_run::Finished;
