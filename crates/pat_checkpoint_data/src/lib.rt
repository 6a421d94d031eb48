//! Checkpoints as the code has them: a configuration with evidence that it is typed.
#![tactic(auto)]

mod data;
mod part_certs;

pub use data::Checkpoint;
pub use part_certs::PartCerts;
