//! Lower bounds of variables, which of them have a derivable word, and what a solver answers.
#![tactic(auto)]

mod lower_bounds;
mod productive;
mod renumbered;
mod results;

pub use lower_bounds::{Index, index_law, lower_bound};
pub use productive::first_unusable;
pub use renumbered::{let_go, renamed, system_of};
pub use results::{Solution, SolveError};
