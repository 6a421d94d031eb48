//! Whether a checkpoint is checked: all rules, in order.
#![tactic(auto)]

mod examining;
mod rules;

pub use examining::examine;
pub use rules::CheckError;
