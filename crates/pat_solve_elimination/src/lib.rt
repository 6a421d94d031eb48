//! Variables eliminated one after another: the closed-form assignment, and whether it covers.
#![tactic(auto)]

mod assignment;
mod covers;
mod error;
mod growing;
mod needing;
mod occurring;
mod replacing;
mod resolving;
mod turns;
mod weighing;

pub use assignment::assigned;
pub use covers::{fits_law, is_covered, side_form};
pub use error::RoundError;
pub use replacing::put_one;
