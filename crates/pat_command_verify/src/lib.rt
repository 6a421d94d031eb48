//! The command `verify`: whether the text behind a program spells a valid derivation of it.
#![tactic(auto)]

mod command;
mod laws;

pub use command::answer_verify;
pub use laws::verify_law;
