//! The run of an accepted program by workers, each in a thread, from its start to an outcome.
#![tactic(auto)]

mod finishing;
mod running;
mod serving;
mod turns;
mod working;

pub use finishing::Finished;
pub use running::run;
