//! Histories written and read; the texts of outcomes, runs and replays.
#![tactic(auto)]

mod entries;
mod reading;
mod run_reports;
mod writing;

pub use reading::read;
pub use run_reports::{Outcome, Remains, order_text_of, replay_text_of, text_of};
