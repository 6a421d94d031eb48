//! What the machine keeps beside a configuration: counts of references, threads that may go on, messages by mailbox.
#![tactic(auto)]

mod messages;
mod ready_sets;
mod refcounts;

pub use messages::{
    Mailboxes, Taken, copy_pending, count_live, delivery, first_message, list_live,
};
pub use ready_sets::{Ascending, ReadySets, lesser};
pub use refcounts::{Counted, RefCounts, list_top};
