// What a table is made for.

use pat_grid_points::{Grid, Symbol};

/// What a table is made for: the points, the limit on sizes, the symbols, and the words that are given.
#[derive(Clone, Copy)]
pub struct Board<'a> {
    /// The greatest count of a point.
    pub k: u32,
    /// The number of tags.
    pub tags: u8,
    /// The number of points.
    pub points: usize,
    /// The greatest size that is told.
    pub limit: u16,
    pub symbols: &'a [Symbol],
    /// Of each variable with a lower bound, the number of its bound's symbol.
    pub roots: &'a [usize],
    /// Of each variable with given words, the points.
    pub given: &'a [Grid],
}
