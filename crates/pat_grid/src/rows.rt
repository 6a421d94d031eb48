// Rows of a table as grids.
ghost use Rattle.std.specs.Prelude.{◌≡◌, ◌<◌, ◌++◌, ◌∷◌, [], length, IfOk, nat_le};
ghost use Rattle.pat_inclusion_spec.specs.bounds.Numbers.{HasAllEntries};
ghost use Rattle.pat_grid.specs.tables.Views.{setting_of, IsBoard};
ghost use Rattle.pat_grid.specs.Rows.{IsRow, AreRows};

use crate::tables::{Board, alike_until, next_known};
use pat_grid_points::{Grid, SparseList};
use pat_sequences::Sequence;
use std::alloc::{AllocError, Global};

/// The points at which the symbol has a tree.
pub fn row(
    alloc: Global,
    board: &Board,
    entries: &SparseList<u16>,
    s: usize,
) -> Result<Grid, AllocError>
    requires board { IsBoard board.now }
    requires all { HasAllEntries (setting_of board.now) entries.now }
    ensures { IfOk result (IsRow board.now entries.now s) }
{
    let mut held = SparseList::repeat(alloc, false, board.points)?;
    let mut number = next_known(board, entries, s, 0);
    while number < board.points {
        let end = alike_until(board, entries, s, number);
        held.fill(number, end - number, true)?;
        number = next_known(board, entries, s, end);
    }
    Ok(Grid::from_held(board.k, board.tags, held))
}

/// Those of each symbol of a list.
pub fn row_grids(
    alloc: Global,
    board: &Board,
    entries: &SparseList<u16>,
    numbers: &[usize],
) -> Result<Sequence<Grid>, AllocError>
    requires board { IsBoard board.now }
    requires all { HasAllEntries (setting_of board.now) entries.now }
    ensures { IfOk result (AreRows board.now entries.now numbers.now) }
{
    let mut grids = Sequence::new(alloc);
    for number in numbers {
        let grid = row(alloc, board, entries, *number)?;
        grids.push(grid)?;
    }
    Ok(grids)
}
