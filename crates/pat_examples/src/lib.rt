//! Programs, derivations and constraints written out, with what is proved of each. No code of the product.
#![tactic(auto)]

mod checkpoints;
mod derivations;
pub mod inference;
pub mod safety;
mod solving;

pub use checkpoints::{checkpoints_examined, turns_taken};
pub use derivations::{forms_and_cuts, refused_derivations, valid_derivations};
pub use inference::{broken_rules, found, refutable, untypable_programs};
pub use safety::{failing_guards, runs, safe_forms, safe_programs, unsafe_programs};
pub use solving::{assignments, bounds, programs, steps};
