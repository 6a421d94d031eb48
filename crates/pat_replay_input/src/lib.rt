//! The history behind a program's text, replayed.
#![tactic(auto)]

mod histories;
mod laws;
mod standing;

pub use histories::{Replayed, replay_behind, replay_bytes};
pub use laws::{history_law, text_law};
pub use pat_history::{Remains, order_text_of, replay_text_of};
pub use standing::standing_of;

// what is written of it
