//! The rules of a checkpoint on one part of a thread after another: their kinds, and their order.
#![tactic(auto)]

mod fitting;
mod free;
mod kinds;
mod lets;
mod lookups;
mod order;
mod parts;
mod showing;
mod typing;

pub use kinds::kinds_hold;
pub use order::order_holds;
pub use pat_checkpoint_numbers::{interface_of, mailboxes_differ, numbers_hold};
