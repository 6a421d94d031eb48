//! The command `derive`: the text of a valid derivation of the program of a text.
#![tactic(auto)]

mod command;

pub use command::answer_derive;
