// What a table that is done says of a search.
ghost use Rattle.std.specs.Prelude.{◌≡◌, ◌+◌, ◌<◌, ◌≤◌, ℕ, IfSome, IfNone, IfOk, IsTrue, IsFalse, ◌↔◌};
ghost use Rattle.pat_inclusion_spec.specs.bounds.Numbers.{HasAllEntries};
ghost use Rattle.pat_inclusion_spec.specs.bounds.Searches.{LargeAnswer};
ghost use Rattle.pat_witnesses.specs.Views.{search_view};
ghost use Rattle.pat_grid.specs.tables.Views.{setting_of, IsBoard};
ghost use Rattle.pat_counterexample_search.specs.Choices.{IsReady};
ghost use Rattle.pat_counterexample_search.specs.Readings.{IsMissing, IsFirstLeast, IsBest, IsReading};

use crate::choice::Place;
use crate::rebuilding::rebuild;
use pat_bags::Bag;
use pat_grid::{Board, entry, next_known};
use pat_grid_points::SparseList;
use pat_witnesses::{Refutation, Search};
use std::alloc::{AllocError, Global};

/// The best point that a search has come by.
#[derive(Clone, Copy)]
pub struct Best {
    /// Its number, if there is one.
    pub found: Option<usize>,
    /// The size of its tree; where there is none, one more than the greatest that is looked for.
    pub above: u16,
}

/// The answer for the left and the right side whose symbols have these numbers.
pub fn read_answer(
    alloc: Global,
    board: &Board,
    entries: &SparseList<u16>,
    left: usize,
    right: usize,
) -> Result<Search, AllocError>
    requires { IsReady board.now entries.now }
    ensures { IfOk result (λ answer. IsReading board.now entries.now left right (search_view answer)) }
{
    match find_missing(board, entries, left, right) {
        Some(number) => {
            if entry(board, entries, left, number) > board.limit {
                return Ok(Search::Large);
            }
            let mut word = Bag::empty();
            let place = Place {
                symbol: left,
                number,
            };
            let tree = rebuild(alloc, board, entries, place, &mut word)?;
            Ok(Search::Found(Refutation { word, tree }))
        }
        None => Ok(Search::Inside),
    }
}

/// Whether a larger limit may have another answer: larger trees alone refute.
pub fn is_large(board: &Board, entries: &SparseList<u16>, left: usize, right: usize) -> bool
    requires board { IsBoard board.now }
    requires all { HasAllEntries (setting_of board.now) entries.now }
    ensures { IsFalse result → IsReading board.now entries.now left right LargeAnswer → ⊥ }
{
    match find_missing(board, entries, left, right) {
        Some(number) => entry(board, entries, left, number) > board.limit,
        None => false,
    }
}

/// The number of a point at which the left side has a tree, and the right side has none: of these one whose tree is least, and of those
/// the first. A tree larger than the limit counts as one more.
fn find_missing(
    board: &Board,
    entries: &SparseList<u16>,
    left: usize,
    right: usize,
) -> Option<usize>
    requires board { IsBoard board.now }
    requires all { HasAllEntries (setting_of board.now) entries.now }
    ensures some { IfSome result (λ number. IsFirstLeast (setting_of board.now) entries.now left right (board.now.limit + 1) number) }
    ensures none { IfNone result ((c : ℕ) → IsMissing (setting_of board.now) entries.now left right (board.now.limit + 1) c → ⊥) }
{
    let most = board.limit + 1;
    let mut best = Best {
        found: None,
        above: most + 1,
    };
    let mut number = next_known(board, entries, left, 0);
    while number < board.points {
        best = better(board, entries, left, right, number, best);
        number = next_known(board, entries, left, number + 1);
    }
    best.found
}

/// The best of the points so far and of that with the number.
fn better(
    board: &Board,
    entries: &SparseList<u16>,
    left: usize,
    right: usize,
    number: usize,
    best: Best,
) -> Best
    requires board { IsBoard board.now }
    requires all { HasAllEntries (setting_of board.now) entries.now }
    requires number { number < board.now.points }
    ensures { (most : ℕ) → IsBest (setting_of board.now) entries.now left right most number best.found best.above
        → IsBest (setting_of board.now) entries.now left right most (number + 1) result.found result.above }
{
    let one = entry(board, entries, left, number);
    let other = entry(board, entries, right, number);
    if one >= best.above {
        return best;
    }
    if other <= board.limit + 1 {
        return best;
    }
    Best {
        found: Some(number),
        above: one,
    }
}
