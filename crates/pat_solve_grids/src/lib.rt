//! Grids of one interface: the bound, where it is in bounds; the least grids of its variables; and what searches of its constraints
//! without variables on the right find.
#![tactic(auto)]

mod batches;
mod bounds;
mod entry;
mod findings;
mod laying;
mod points;
mod searches;
mod shared;

pub use bounds::grid_bound;
pub use entry::{InterfaceGrids, interface_grids};
