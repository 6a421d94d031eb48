//! The closed-form values of one interface: they are patterns that cover its constraints, or something is too large, or a constraint
//! isn't covered.
#![tactic(auto)]

mod bounds;
mod checking;
mod forms;
mod lowers;
mod same;
mod values;

pub use pat_solve_bounds::Index;
pub use values::{ClosedValues, interface_values};
