// The text that a run shows, and that of a replay: history, output, and outcome.

mod counting;
mod run_text;
mod standing;

pub use pat_machine::{Outcome, Remains};
pub use run_text::{order_text_of, replay_text_of, text_of};
