//! Whether the program of a text is accepted: a valid derivation of it, made of what inference and solving find, or the first reason
//! why there is none.
#![tactic(auto)]

mod accepting;
mod explaining;
mod inputs;
mod laws;
mod words;

pub use accepting::{Unaccepted, accept};
pub use inputs::{Checked, check_input};
pub use laws::{complete_law, one_verdict_law};
