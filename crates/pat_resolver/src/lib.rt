//! Trees to programs.
#![tactic(auto)]

mod entry;
mod functions;
mod heads;
mod numbering;
mod whole;

pub use whole::{examine, resolve};
