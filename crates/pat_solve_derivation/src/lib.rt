//! The derivation that is made of a solved problem, with its certificates.
#![tactic(auto)]

mod certificates;
mod lines;
mod making;
mod nodes;

pub use making::derivation_of;
pub use pat_solve_laws::{one_answer_laws, refusal_laws};
