// The closed-form assignment of an interface by the lower bounds of its variables.

mod assigning;
mod first;
mod second;

pub use assigning::assigned;
pub use pat_solve_bounded::{Replacement, replaced};
