//! One call of `pat`: its words, its input, what it answers, and what it writes.
#![tactic(auto)]

mod commands;
mod laws;
mod output;
mod process;
mod session;
mod words;

pub use laws::complete_law;
pub use process::exit;
pub use session::{pat, pat_alone};
pub use words::Command;
