//! Replays of histories.
#![tactic(auto)]

mod counting;
mod error;
mod kept;
mod making;
mod names;
mod places;
mod plain;
mod replaying;
mod tables;

pub use error::ReplayError;
pub use making::Reached;
pub use replaying::{replay_from, replay_from_start};
