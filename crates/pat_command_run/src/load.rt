// The command `load`: the output of a run of the generated program of a size.

mod command;

pub use command::answer_load;
pub use pat_run::Finished;
