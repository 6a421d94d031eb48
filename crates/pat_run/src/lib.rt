//! A run with options: the words that choose them, and the run by one worker on the calling thread, or by several in threads.
#![tactic(auto)]

mod dispatch;
mod options;
mod single;

pub use dispatch::{run_alone, run_in_threads};
pub use options::{RunOptions, number_of, options_of, steps_of};
pub use single::{Finished, Outcome};
