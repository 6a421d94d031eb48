//! What each node of a derivation asks of the types that it has.
#![tactic(auto)]

mod along;
mod asking;
mod demand;
mod looking;
mod of_terms;
mod passing;

pub use asking::push_arguments;
pub use demand::{Demand, Signature};
pub use looking::{kind_of, line_of, signature_of, tag_of};
pub use of_terms::{demands, first, signatures, term};
pub use passing::{as_returnable, names_but};
pub use pat_derivations::holds;
