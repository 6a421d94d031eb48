//! Laws that the machine rests on: commits, who wakes whom, a thread's steps by itself, messages by mailbox, counts of references. No code of the product.
#![tactic(auto)]

pub mod commits;
pub mod mailbox_index;
pub mod refcounts;
mod thread_frames;
mod wakeups;

pub use commits::{machine_laws, refusal_laws, turn_laws};
pub use mailbox_index::{look_up_laws, own_laws};
pub use refcounts::{exchange_laws, few_laws, free_laws, join_laws, live_laws, test_laws};
pub use thread_frames::{alone_laws, back_laws, left_laws};
pub use wakeups::{need_laws, sender_laws, sleeper_laws, superset_laws, waking_laws};
