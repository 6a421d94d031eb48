// The run of an accepted program by as many workers as the options say: by one on the calling thread, or by several in threads.

mod running;

pub use running::{run_alone, run_in_threads};
