// A set of points.
ghost use Rattle.std.specs.Prelude.{◌≡◌, length, IsTrue};
ghost use Rattle.pat_inclusion_spec.specs.Points.{grid_fits};
ghost use Rattle.pat_inclusion_spec.specs.bounds.Numbers.{points_in};

use crate::sparse::SparseList;

/// A set of points: words of the first `tags` tags whose counts are at most `k`.
#[derive(Drop)]
pub struct Grid {
    /// The greatest count.
    pub k: u32,
    /// The number of tags.
    pub tags: u8,
    /// Of each number, whether the point with the number is in the set.
    pub held: SparseList<bool>,
    ghost fits: { IsTrue (grid_fits k tags) },
    ghost counted: { length held ≡ points_in k tags },
}
