// What the parts of a symbol give.
ghost use Rattle.std.specs.Prelude.{◌≡◌, ◌<◌, ◌+◌, length, get_or, min, ℕ, OnOk};
ghost use Rattle.pat_inclusion_spec.specs.bounds.Numbers.{HasAllEntries};
ghost use Rattle.pat_grid.specs.tables.Views.{setting_of, IsBoard};
ghost use Rattle.pat_grid.specs.tables.Moves.{IsPlace, Moved, TakesPart, PartAt, PartBefore, HasLists, TakesParts, AreOthers, PairAt, RowBefore, RowsBefore};

use crate::tables::board::Board;
use crate::tables::entries::{entry, lower};
use crate::tables::listing::known;
use crate::tables::sizes::Sizes;
use pat_grid_points::sum_of_points;
use pat_sequences::Sequence;
use std::alloc::AllocError;

/// The size of a tree with one part of this size, as far as it is told.
fn one_more(board: &Board, size: u32) -> u16
    requires { (board.now.limit < 65535) × (size < 131072) }
    ensures { result ≡ min (size + 1) (board.now.limit + 1) }
{
    (size + 1).min(board.limit as u32 + 1) as u16
}

/// Lowers the entries of symbol `s` to what its part gives.
pub fn relax_part(
    board: &Board,
    sizes: &mut Sizes,
    listed: &mut Sequence<usize>,
    s: usize,
    part: usize,
    changed: &mut bool,
) -> Result<(), AllocError>
    requires board { IsBoard board.now }
    requires all { HasAllEntries (setting_of board.now) sizes.old.entries }
    requires lists { HasLists (setting_of board.now) sizes.old }
    requires symbol { s < length board.now.symbols.now }
    requires takes { TakesPart (setting_of board.now) s part }
    ensures { let g = setting_of board.now in OnOk result
        (Moved g s (part ≡ s → ⊥) (PartBefore g s part board.now.points) sizes.old changed.old sizes.new changed.new) }
{
    known(board, sizes, part, 0, listed)?;
    let numbers = listed.as_slice();
    for number in numbers {
        relax_part_at(board, sizes, s, part, *number, changed)?;
    }
    Ok(())
}

/// So at one number.
fn relax_part_at(
    board: &Board,
    sizes: &mut Sizes,
    s: usize,
    part: usize,
    number: usize,
    changed: &mut bool,
) -> Result<(), AllocError>
    requires board { IsBoard board.now }
    requires all { HasAllEntries (setting_of board.now) sizes.old.entries }
    requires place { IsPlace board.now s number }
    requires takes { TakesPart (setting_of board.now) s part }
    ensures { let g = setting_of board.now in
        OnOk result (Moved g s (part ≡ s → ⊥) (PartAt g s part number) sizes.old changed.old sizes.new changed.new) }
{
    let size = entry(board, &sizes.entries, part, number);
    if size > board.limit + 1 {
        return Ok(());
    }
    let own = one_more(board, size as u32);
    lower(board, sizes, s, number, own, changed)
}

/// Lowers the entries of symbol `s` to what its parts give at each number of the one list with each of the other.
pub fn relax_parts(
    board: &Board,
    sizes: &mut Sizes,
    s: usize,
    parts: (usize, usize),
    firsts: &[usize],
    seconds: &[usize],
    changed: &mut bool,
) -> Result<(), AllocError>
    requires board { IsBoard board.now }
    requires all { HasAllEntries (setting_of board.now) sizes.old.entries }
    requires symbol { s < length board.now.symbols.now }
    requires firsts { (i : ℕ) → i < length firsts.now
        → (get_or firsts.now i 0 < board.now.points) × TakesParts (setting_of board.now) s parts.0 parts.1 (get_or firsts.now i 0) }
    requires seconds { (j : ℕ) → j < length seconds.now → get_or seconds.now j 0 < board.now.points }
    ensures { let g = setting_of board.now in OnOk result
        (Moved g s (AreOthers parts.0 parts.1 s) (RowsBefore g s parts.0 parts.1 firsts.now seconds.now (length firsts.now))
        sizes.old changed.old sizes.new changed.new) }
{
    for first in firsts {
        relax_row(board, sizes, s, parts, *first, seconds, changed)?;
    }
    Ok(())
}

/// So at one number of the first part.
pub fn relax_row(
    board: &Board,
    sizes: &mut Sizes,
    s: usize,
    parts: (usize, usize),
    first: usize,
    seconds: &[usize],
    changed: &mut bool,
) -> Result<(), AllocError>
    requires board { IsBoard board.now }
    requires all { HasAllEntries (setting_of board.now) sizes.old.entries }
    requires place { IsPlace board.now s first }
    requires takes { TakesParts (setting_of board.now) s parts.0 parts.1 first }
    requires seconds { (j : ℕ) → j < length seconds.now → get_or seconds.now j 0 < board.now.points }
    ensures { let g = setting_of board.now in OnOk result
        (Moved g s (AreOthers parts.0 parts.1 s) (RowBefore g s parts.0 parts.1 first seconds.now (length seconds.now)) sizes.old
        changed.old sizes.new changed.new) }
{
    for second in seconds {
        relax_pair(board, sizes, s, parts, first, *second, changed)?;
    }
    Ok(())
}

/// So at one number of each part.
pub fn relax_pair(
    board: &Board,
    sizes: &mut Sizes,
    s: usize,
    parts: (usize, usize),
    first: usize,
    second: usize,
    changed: &mut bool,
) -> Result<(), AllocError>
    requires board { IsBoard board.now }
    requires all { HasAllEntries (setting_of board.now) sizes.old.entries }
    requires place { IsPlace board.now s first }
    requires second { second < board.now.points }
    requires takes { TakesParts (setting_of board.now) s parts.0 parts.1 first }
    ensures { let g = setting_of board.now in OnOk result
        (Moved g s (AreOthers parts.0 parts.1 s) (PairAt g s parts.0 parts.1 first second) sizes.old changed.old sizes.new
        changed.new) }
{
    let one = entry(board, &sizes.entries, parts.0, first);
    let other = entry(board, &sizes.entries, parts.1, second);
    if one > board.limit + 1 || other > board.limit + 1 {
        return Ok(());
    }
    let number = sum_of_points(first, second, board.k, board.tags);
    let size = one_more(board, one as u32 + other as u32);
    lower(board, sizes, s, number, size, changed)
}
