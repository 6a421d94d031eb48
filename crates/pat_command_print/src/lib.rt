//! The command `print`: the canonical text of a program.
#![tactic(auto)]

mod command;

pub use command::answer_print;
