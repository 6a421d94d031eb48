// The options of a run, and numbers, from the words of a call.

mod options;

pub use options::{RunOptions, number_of, options_of, steps_of};
