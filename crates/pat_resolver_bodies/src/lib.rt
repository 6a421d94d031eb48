//! The rules of names and kinds in the bodies of functions.
#![tactic(auto)]

mod bodies;
mod expressions;
mod guards;
mod kinds;
mod lookups;
mod names;
mod variables;

pub use bodies::check_body;
pub use kinds::kind_of_sort;
pub use variables::{Variables, bind};
