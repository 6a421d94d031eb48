//! Texts: numbers in decimal, cuts at a byte, and why a text is not read.
#![tactic(auto)]

mod cutting;
mod decimal;
mod error;
mod numbers;

pub use cutting::{before, behind, cut, first_piece};
pub use decimal::push_number;
pub use error::TextError;
pub use numbers::{read_digits, read_number};
