//! All interfaces, one after another: the right answer.
#![tactic(auto)]

mod interface;
mod solving;
mod states;

pub use solving::solve;
