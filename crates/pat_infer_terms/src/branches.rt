// Branches of choices and guards that have been walked: their rules, their names, and what they need together.

mod arms;
mod guards;

pub use arms::{WalkedArm, check_arms, gather_arms};
pub use guards::{Guarded, guard_needs};
