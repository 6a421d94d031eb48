// Entries, and what lowers one.
ghost use Rattle.std.specs.Prelude.{◌≡◌, ◌<◌, ◌≤◌, ◌+◌, ◌*◌, ℕ, length, OnOk};
ghost use Rattle.pat_inclusion_spec.specs.bounds.Tables.{Step, IsKnown};
ghost use Rattle.pat_inclusion_spec.specs.bounds.Numbers.{table_of, point_of, HasAllEntries};
ghost use Rattle.pat_grid.specs.tables.Views.{setting_of, IsBoard};
ghost use Rattle.pat_grid.specs.tables.Moves.{entry_at, IsPlace, Moved, KeepsKnown};

use crate::tables::board::Board;
use crate::tables::sizes::{Sizes, note_if};
use pat_grid_points::SparseList;
use std::alloc::AllocError;

/// The entry of the symbol at the point with the number; that of no tree where there is no such symbol.
pub fn entry(board: &Board, entries: &SparseList<u16>, s: usize, number: usize) -> u16
    requires board { IsBoard board.now }
    requires all { HasAllEntries (setting_of board.now) entries.now }
    requires number { number < board.now.points }
    ensures { result ≡ entry_at (setting_of board.now) entries.now s number }
{
    if s < board.symbols.len() {
        entries.get(place_of(board, entries, s, number))
    } else {
        board.limit + 2
    }
}

/// Where the entry of the symbol at the point with the number stands.
fn place_of(board: &Board, entries: &SparseList<u16>, s: usize, number: usize) -> usize
    requires board { IsBoard board.now }
    requires all { HasAllEntries (setting_of board.now) entries.now }
    requires place { IsPlace board.now s number }
    ensures value { result ≡ s * board.now.points + number }
    ensures within { result < length entries.now }
{
    // It is below the number of entries, so nothing wraps.
    let _count = entries.len();
    s * board.points + number
}

/// The first number from this one on at which the symbol has a tree; where there is none, the number of points.
pub fn next_known(board: &Board, entries: &SparseList<u16>, s: usize, from: usize) -> usize
    requires board { IsBoard board.now }
    requires all { HasAllEntries (setting_of board.now) entries.now }
    requires from { from ≤ board.now.points }
    ensures from { from ≤ result }
    ensures within { result ≤ board.now.points }
    ensures before { (c : ℕ) → from ≤ c → c < result → IsKnown board.now.limit (entry_at (setting_of board.now) entries.now s c) → ⊥ }
    ensures there { result < board.now.points → IsKnown board.now.limit (entry_at (setting_of board.now) entries.now s result) }
{
    let mut number = from;
    while number < board.points {
        if entry(board, entries, s, number) <= board.limit + 1 {
            return number;
        }
        number = alike_until(board, entries, s, number);
    }
    number
}

/// A number past this one; up to it the symbol's entries are the same as here.
pub fn alike_until(board: &Board, entries: &SparseList<u16>, s: usize, number: usize) -> usize
    requires board { IsBoard board.now }
    requires all { HasAllEntries (setting_of board.now) entries.now }
    requires number { number < board.now.points }
    ensures past { number < result }
    ensures within { result ≤ board.now.points }
    ensures same { (c : ℕ) → number ≤ c → c < result
        → entry_at (setting_of board.now) entries.now s c ≡ entry_at (setting_of board.now) entries.now s number }
{
    if s >= board.symbols.len() {
        return number + 1;
    }
    let place = place_of(board, entries, s, number);
    let run = entries.same_until(place) - place;
    (number + run).min(board.points)
}

/// Lowers the entry of the symbol at the point with the number, if it is greater.
pub fn lower(
    board: &Board,
    sizes: &mut Sizes,
    s: usize,
    number: usize,
    size: u16,
    changed: &mut bool,
) -> Result<(), AllocError>
    requires board { IsBoard board.now }
    requires all { HasAllEntries (setting_of board.now) sizes.old.entries }
    requires place { IsPlace board.now s number }
    requires step { let g = setting_of board.now in Step g (table_of g sizes.old.entries) s (point_of g.bound g.tags number) size }
    ensures { let g = setting_of board.now in OnOk result
        (Moved g s (Unit {0}) (λ es. entry_at g es s number ≤ size) sizes.old changed.old sizes.new changed.new) }
{
    let place = place_of(board, &sizes.entries, s, number);
    let old = sizes.entries.get(place);
    if size >= old {
        return Ok(());
    }
    note_if(old > board.limit + 1, &mut sizes.reached, s, number)?;
    sizes.news.push(number)?;
    sizes.entries.set(place, size)?;
    *changed = true;
    Ok(())
}

/// Notes that the symbol has a tree at the point with the number, where none was known; only larger ones than the limit.
pub fn reach(
    board: &Board,
    sizes: &mut Sizes,
    s: usize,
    number: usize,
    changed: &mut bool,
) -> Result<(), AllocError>
    requires board { IsBoard board.now }
    requires all { HasAllEntries (setting_of board.now) sizes.old.entries }
    requires place { IsPlace board.now s number }
    requires none { board.now.limit + 1 < entry_at (setting_of board.now) sizes.old.entries s number }
    requires step { let g = setting_of board.now in Step g (table_of g sizes.old.entries) s (point_of g.bound g.tags number)
        (board.now.limit + 1) }
    ensures moved { let g = setting_of board.now in OnOk result
        (Moved g s (Unit {0}) (λ es. entry_at g es s number ≤ g.limit + 1) sizes.old changed.old sizes.new changed.new) }
    ensures kept { OnOk result (KeepsKnown (setting_of board.now) sizes.old.entries sizes.new.entries) }
{
    let place = place_of(board, &sizes.entries, s, number);
    sizes.reached.note(s, number)?;
    sizes.news.push(number)?;
    sizes.entries.set(place, board.limit + 1)?;
    *changed = true;
    Ok(())
}
