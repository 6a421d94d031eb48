//! The problem of a program, or the first broken rule.
#![tactic(auto)]

mod entry;
mod making;
mod walk;

pub use entry::constraints;
