//! Types of mailboxes, of terms and of nodes, as inference, derivations and the judge have them.
#![tactic(auto)]

mod copying;
mod covering;
mod joining;
mod payloads;
mod types;

pub use copying::{copy_needs, right_of};
pub use covering::is_covered;
pub use joining::{Combined, combine, join_usage};
pub use payloads::{is_mailbox, payload_type, payload_types};
pub use types::{MailboxType, NodeType, Right, TypeOf, Usage};
