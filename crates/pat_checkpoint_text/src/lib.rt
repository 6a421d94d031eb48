//! Checkpoints from their text.
#![tactic(auto)]

mod gathering;
mod heads;
mod integers;
mod mailboxes;
mod messages;
mod outside;
mod reading;
mod strings;
mod threads;
mod values;

pub use reading::read;
