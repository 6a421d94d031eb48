//! Derivations to text, and back.
#![tactic(auto)]

mod certificates;
mod lines;
mod nodes;
mod pieces;
mod reading;
mod types;

pub use certificates::put_cert;
pub use lines::write;
pub use reading::read;
