// A machine behind a turn: jobs are taken, committed and given back in one hold each.

mod holds;
mod machines;

pub use holds::{commit_in_turn, give_back_in_turn, take_in_turn};
pub use machines::Taken;
