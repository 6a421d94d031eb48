// The pending messages of a machine: which one a guard takes, which one has a number; and copies of them.

mod copies;
mod deliveries;

pub use copies::{copy_pending, count_live, list_live};
pub use deliveries::{Taken, delivery, first_message};
pub use pat_mailboxes::Mailboxes;
