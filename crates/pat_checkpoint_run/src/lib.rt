//! Runs that go on from a checked checkpoint.
#![tactic(auto)]

mod course;
mod limits;
mod locals;
mod mailboxes;
mod next;
mod outcome;
mod resumed;
mod sharing;
mod start;

pub use limits::MOST_NEXT_NUMBER;
pub use mailboxes::FirstMailboxes;
pub use pat_machine::Outcome;
pub use resumed::{Resumed, run_from};
pub use start::start_checkpoint;
