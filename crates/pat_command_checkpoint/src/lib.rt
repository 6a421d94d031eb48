//! The command `checkpoint`: a derivation of a program, and the checkpoint that a run of it leads to, or a history from a checkpoint on.
#![tactic(auto)]

mod command;
mod laws;
mod pieces;

pub use command::answer_checkpoint;
pub use laws::checkpoint_law;
