//! The command `check`: whether the program of a text is accepted.
#![tactic(auto)]

mod command;

pub use command::answer_check;
pub use pat_typecheck::complete_law;
