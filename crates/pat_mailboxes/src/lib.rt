//! Pending messages by mailbox, in a pool of queues.
#![tactic(auto)]

mod mailboxes;
mod queues;
mod store;

pub use mailboxes::Mailboxes;
pub use queues::{Chain, Chains, LANES, Mark, Numbered, Pool, Region, Test, lane_of};
pub use store::Store;
