//! The command `replay`: what a program's history leads to, from its start or from a checkpoint on.
#![tactic(auto)]

mod command;
mod laws;
mod pieces;

pub use command::answer_replay;
pub use laws::replay_law;
