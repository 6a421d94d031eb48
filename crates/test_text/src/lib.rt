//! Ports, and texts to tokens and trees, and back.
#![tactic(auto)]

#[cfg(test)]
mod checking;
#[cfg(test)]
mod front;
mod lexer;
mod parser;
#[cfg(test)]
mod ports;
#[cfg(test)]
mod tests;

pub use lexer::{lexer_behind, tokens_of};
pub use parser::{CELL, append, grow, outcome};
