//! The machine: jobs, commits and the history.
#![tactic(auto)]

mod committing;
mod driving;
mod entry;
mod job;
mod machine;
mod mailboxes;
mod outcome;
mod parts;
mod taking;

pub use job::{CommitRefused, Job, Named, Outcome, Receipt, StateRefused, TakeRefused};
pub use machine::Machine;
pub use mailboxes::MailboxesOf;
pub use pat_machine_indexes::{Mailboxes, RefCounts};
pub use pat_machine_steps::Remains;
