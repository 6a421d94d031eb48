//! Certificates by grids: that the cut words of one pattern lie in another, where the bound is large enough.
#![tactic(auto)]

mod bounds;
mod check;
mod cutting;
mod large;
mod values;

pub use bounds::is_grid;
pub use check::check_grid;
pub use large::is_large_enough;
pub use pat_grid::Grid;
pub use values::{Right, VarValue};
