//! Words of a pattern and derivable words, each cut at a count, from tables of least trees.
#![tactic(auto)]

mod grids;
mod rows;
mod tables;

pub use grids::{eval, least};
pub use pat_grid_points::Grid;
pub use rows::row_grids;
pub use tables::{Board, entry, least_sizes, next_known};
