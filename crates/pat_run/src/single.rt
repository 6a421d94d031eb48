// The run of an accepted program by one worker, from its start to an outcome.

mod running;

pub use pat_machine::Outcome;
pub use running::{Finished, run};
