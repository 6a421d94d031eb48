//! Checkpoints: a typed configuration written as a text with the certificates that show it typed.
#![tactic(auto)]

mod error;
mod laws;
mod writing;

pub use error::WriteError;
pub use laws::{replayed_law, started_law};
pub use pat_checkpoint_data::Checkpoint;
pub use writing::write;
