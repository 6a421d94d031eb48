//! Whether a word is one of a pattern's, and the check of a refutation.
#![tactic(auto)]

mod checking;
mod membership;
mod walk;

pub use checking::check_refutation;
pub use membership::member;
