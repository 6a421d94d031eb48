//! The checkpoint behind the texts of a program and of a derivation, judged; and the history that goes on from it, replayed.
#![tactic(auto)]

mod inputs;
mod laws;
mod pieces;
mod texts;

pub use inputs::{CheckedInput, checked_bytes, has_marks};
pub use laws::{checkpoint_input_law, piece_law};
pub use pieces::{Led, Piece, place_of_piece, replay_piece};
