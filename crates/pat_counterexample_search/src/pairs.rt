// Two parts that make a tree of a size.
ghost use Rattle.std.specs.Prelude.{◌≡◌, ◌<◌, ◌≤◌, ℕ, IfSome, IfNone, IsTrue, ◌↔◌};
ghost use Rattle.pat_inclusion_spec.specs.bounds.Numbers.{HasAllEntries};
ghost use Rattle.pat_grid.specs.tables.Views.{setting_of, IsBoard};
ghost use Rattle.pat_counterexample_search.specs.Choices.{ArePair};

use pat_grid::{Board, entry};
use pat_grid_points::{SparseList, sum_of};

/// Numbers of points of both parts that add up to the point, with entries that make one of the size; the first is `from` at
/// least.
pub fn find_pair(
    board: &Board,
    entries: &SparseList<u16>,
    parts: (usize, usize),
    from: usize,
    number: usize,
    size: u16,
) -> Option<(usize, usize)>
    requires board { IsBoard board.now }
    requires all { HasAllEntries (setting_of board.now) entries.now }
    ensures some { IfSome result (λ pair. (from ≤ pair.0)
        × ArePair (setting_of board.now) entries.now number size parts.0 pair.0 parts.1 pair.1) }
    ensures none { IfNone result ((i j : ℕ) → from ≤ i → ArePair (setting_of board.now) entries.now number size parts.0 i parts.1 j → ⊥) }
{
    for first in from..board.points {
        if let Some(second) = find_second(board, entries, parts, first, number, size) {
            return Some((first, second));
        }
    }
    None
}

/// The number of a point of the second part, which goes with that of the first.
fn find_second(
    board: &Board,
    entries: &SparseList<u16>,
    parts: (usize, usize),
    first: usize,
    number: usize,
    size: u16,
) -> Option<usize>
    requires board { IsBoard board.now }
    requires all { HasAllEntries (setting_of board.now) entries.now }
    requires first { first < board.now.points }
    ensures some { IfSome result (λ second. ArePair (setting_of board.now) entries.now number size parts.0 first parts.1 second) }
    ensures none { IfNone result ((j : ℕ) → ArePair (setting_of board.now) entries.now number size parts.0 first parts.1 j → ⊥) }
{
    if entry(board, entries, parts.0, first) >= size {
        return None;
    }
    for second in 0..board.points {
        if are_pair(board, entries, parts, first, second, number, size) {
            return Some(second);
        }
    }
    None
}

/// Whether the points add up to that with the number, and the entries make one of the size.
fn are_pair(
    board: &Board,
    entries: &SparseList<u16>,
    parts: (usize, usize),
    first: usize,
    second: usize,
    number: usize,
    size: u16,
) -> bool
    requires board { IsBoard board.now }
    requires all { HasAllEntries (setting_of board.now) entries.now }
    requires first { first < board.now.points }
    requires second { second < board.now.points }
    ensures { IsTrue result ↔ ArePair (setting_of board.now) entries.now number size parts.0 first parts.1 second }
{
    let one = entry(board, entries, parts.0, first) as u32;
    let other = entry(board, entries, parts.1, second) as u32;
    one + other + 1 == size as u32 && sum_of(first, second, board.k, board.tags) == number
}
