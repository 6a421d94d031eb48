//! Points of grids as numbers, sets of points, and patterns laid out flat in symbols.
#![tactic(auto)]

ghost use Rattle.std.specs.Prelude.{◌↔◌};
ghost use Rattle.pat_words_spec.specs.Words.{Word};
ghost use Rattle.pat_words_spec.specs.Languages.{MemberOf};
ghost use Rattle.pat_grid_points.specs.declared.grid.Grid.{Grid as GridValue};
ghost use Rattle.pat_grid_points.specs.Views.{HasPoint, points_of};

mod blocks;
mod chains;
mod grid;
mod lists;
mod making;
mod numbers;
mod reading;
mod sparse;
mod symbols;

pub use chains::Chains;
pub use grid::Grid;
pub use lists::{forget, take};
pub use numbers::{bag_of, count_points, number_of, sum_of, sum_of_points};
pub use reading::next_held;
pub use sparse::SparseList;
pub use symbols::{Role, Symbol, has_tags, lay_out, lay_out_all};

/// The points of a grid, listed, are just those that it has.
pub fn points_law()
    ensures { (g : GridValue) (u : Word) → MemberOf (points_of g) u ↔ HasPoint g u }
{}
