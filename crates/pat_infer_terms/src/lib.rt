//! Needs, rules and constraints of terms, choices and guards.
#![tactic(auto)]

mod branches;
mod names;
mod terms;

pub use branches::{Guarded, WalkedArm, check_arms, gather_arms, guard_needs};
pub use names::{Binder, bind_at, check_names, constrain_names};
pub use terms::{call_needs, constrain_new, send_needs, value_needs};
