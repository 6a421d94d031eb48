// What two parts give at many points: pairs of them are looked at only where their trees together are within the limit, and what larger
// trees alone reach are sums of sets.

ghost use Rattle.std.specs.Prelude.{◌≡◌, ◌<◌, ◌≤◌, ◌+◌, ◌++◌, ◌∷◌, [], if◌then◌else◌, length, get_or, ℕ, IfOk, OnOk, IsTrue};
ghost use Rattle.pat_inclusion_spec.specs.bounds.Tables.{Step};
ghost use Rattle.pat_inclusion_spec.specs.bounds.Numbers.{HasAllEntries, table_of, point_of};
ghost use Rattle.pat_grid.specs.tables.Views.{setting_of, IsBoard};
ghost use Rattle.pat_grid.specs.tables.Moves.{entry_at, IsPlace, HasLists, WholeRows, KeptBefore, Moved, TakesParts, AreOthers, RowsBefore, KeepsKnown, AreKnown, WithinAt, RowWithin, RowsWithin, HasSums};

use crate::tables::board::Board;
use crate::tables::entries::{entry, reach};
use crate::tables::listing::known;
use crate::tables::sizes::Sizes;
use crate::tables::steps::{relax_pair, relax_parts};
use pat_grid_points::SparseList;
use pat_grid_sums::list_sums;
use pat_sequences::Sequence;
use std::alloc::{AllocError, Global};

// As many pairs for each point of the grid cost about what its sums of sets do.
const PAIRS_A_POINT: usize = 16;

/// Lowers the entries of symbol `s` to what its parts give at each number of the one list with each of the other.
pub fn relax_either(
    alloc: Global,
    board: &Board,
    sizes: &mut Sizes,
    s: usize,
    parts: (usize, usize),
    firsts: &[usize],
    seconds: &[usize],
    changed: &mut bool,
) -> Result<(), AllocError>
    requires board { IsBoard board.now }
    requires all { HasAllEntries (setting_of board.now) sizes.old.entries }
    requires there { s < length board.now.symbols.now }
    requires firsts { (i : ℕ) → i < length firsts.now
        → (get_or firsts.now i 0 < board.now.points) × TakesParts (setting_of board.now) s parts.0 parts.1 (get_or firsts.now i 0) }
    requires seconds { (j : ℕ) → j < length seconds.now → get_or seconds.now j 0 < board.now.points }
    ensures { let g = setting_of board.now in OnOk result
        (Moved g s (AreOthers parts.0 parts.1 s) (RowsBefore g s parts.0 parts.1 firsts.now seconds.now (length firsts.now))
        sizes.old changed.old sizes.new changed.new) }
{
    if !is_apart(parts, s) {
        return relax_parts(board, sizes, s, parts, firsts, seconds, changed);
    }
    if !are_many(board, firsts.len(), seconds.len()) {
        return relax_parts(board, sizes, s, parts, firsts, seconds, changed);
    }
    let ones = kept_below(
        alloc,
        board,
        &sizes.entries,
        parts.0,
        board.limit + 2,
        firsts,
    )?;
    let others = kept_below(
        alloc,
        board,
        &sizes.entries,
        parts.1,
        board.limit + 2,
        seconds,
    )?;
    relax_many(
        alloc,
        board,
        sizes,
        s,
        parts,
        ones.as_slice(),
        others.as_slice(),
        changed,
    )
}

/// Whether both parts are other symbols.
fn is_apart(parts: (usize, usize), s: usize) -> bool
    ensures { IsTrue result → AreOthers parts.0 parts.1 s }
{
    parts.0 != s && parts.1 != s
}

/// Whether there are so many pairs that sums of sets are quicker.
fn are_many(board: &Board, firsts: usize, seconds: usize) -> bool {
    firsts.saturating_mul(seconds) / PAIRS_A_POINT > board.points
}

/// Whether all numbers of a star's part are better joined with the star's at once than one after another, which grows it quicker: where
/// the part has many of them, or pairs are more than points.
pub fn goes_at_once(board: &Board, firsts: usize, seconds: usize) -> bool {
    firsts.saturating_mul(seconds) > board.points || are_many(board, firsts, board.points)
}

/// So where there are many pairs, of other symbols.
fn relax_many(
    alloc: Global,
    board: &Board,
    sizes: &mut Sizes,
    s: usize,
    parts: (usize, usize),
    firsts: &[usize],
    seconds: &[usize],
    changed: &mut bool,
) -> Result<(), AllocError>
    requires board { IsBoard board.now }
    requires all { HasAllEntries (setting_of board.now) sizes.old.entries }
    requires there { s < length board.now.symbols.now }
    requires apart { AreOthers parts.0 parts.1 s }
    requires firsts { (i : ℕ) → i < length firsts.now → (get_or firsts.now i 0 < board.now.points)
        × TakesParts (setting_of board.now) s parts.0 parts.1 (get_or firsts.now i 0) }
    requires seconds { (j : ℕ) → j < length seconds.now → get_or seconds.now j 0 < board.now.points }
    requires known { let g = setting_of board.now in AreKnown g parts.0 firsts.now sizes.old.entries
        × AreKnown g parts.1 seconds.now sizes.old.entries }
    ensures { let g = setting_of board.now in
        OnOk result (Moved g s (AreOthers parts.0 parts.1 s)
        (RowsBefore g s parts.0 parts.1 firsts.now seconds.now (length firsts.now)) sizes.old changed.old sizes.new changed.new) }
{
    relax_within(alloc, board, sizes, s, parts, firsts, seconds, changed)?;
    reach_sums(alloc, board, sizes, s, parts, firsts, seconds, changed)
}

/// So of a star, which is its own second part, at each point at which it has a tree: once, since it is looked at again where something
/// was lowered.
pub fn relax_round(
    alloc: Global,
    board: &Board,
    sizes: &mut Sizes,
    listed: &mut Sequence<usize>,
    s: usize,
    part: usize,
    firsts: &[usize],
    changed: &mut bool,
) -> Result<(), AllocError>
    requires board { IsBoard board.now }
    requires all { HasAllEntries (setting_of board.now) sizes.old.entries }
    requires lists { HasLists (setting_of board.now) sizes.old }
    requires there { s < length board.now.symbols.now }
    requires firsts { (i : ℕ) → i < length firsts.now
        → (get_or firsts.now i 0 < board.now.points) × TakesParts (setting_of board.now) s part s (get_or firsts.now i 0) }
    ensures { let g = setting_of board.now in OnOk result
        (Moved g s ⊥ (WholeRows g s part s firsts.now (length firsts.now)) sizes.old changed.old sizes.new changed.new) }
{
    known(board, sizes, s, 0, listed)?;
    let ones = kept_below(alloc, board, &sizes.entries, part, board.limit + 2, firsts)?;
    let others = kept_below(
        alloc,
        board,
        &sizes.entries,
        s,
        board.limit + 2,
        listed.as_slice(),
    )?;
    relax_again(
        alloc,
        board,
        sizes,
        s,
        part,
        ones.as_slice(),
        others.as_slice(),
        changed,
    )
}

fn relax_again(
    alloc: Global,
    board: &Board,
    sizes: &mut Sizes,
    s: usize,
    part: usize,
    firsts: &[usize],
    seconds: &[usize],
    changed: &mut bool,
) -> Result<(), AllocError>
    requires board { IsBoard board.now }
    requires all { HasAllEntries (setting_of board.now) sizes.old.entries }
    requires there { s < length board.now.symbols.now }
    requires firsts { (i : ℕ) → i < length firsts.now → (get_or firsts.now i 0 < board.now.points)
        × TakesParts (setting_of board.now) s part s (get_or firsts.now i 0) }
    requires seconds { (j : ℕ) → j < length seconds.now → get_or seconds.now j 0 < board.now.points }
    requires known { let g = setting_of board.now in AreKnown g part firsts.now sizes.old.entries
        × AreKnown g s seconds.now sizes.old.entries }
    ensures { let g = setting_of board.now in
        OnOk result (Moved g s ⊥ (RowsBefore g s part s firsts.now seconds.now
        (length firsts.now)) sizes.old changed.old sizes.new changed.new) }
{
    let mut lowered = false;
    relax_within(
        alloc,
        board,
        sizes,
        s,
        (part, s),
        firsts,
        seconds,
        &mut lowered,
    )?;
    if lowered {
        *changed = true;
        return Ok(());
    }
    reach_sums(alloc, board, sizes, s, (part, s), firsts, seconds, changed)
}

// It asks what `relax_either` does, and gives less: so the clauses before are the same, and the last isn't.
/// Lowers the entries of the symbol to what its parts give where their trees together are within the limit.
fn relax_within(
    alloc: Global,
    board: &Board,
    sizes: &mut Sizes,
    s: usize,
    parts: (usize, usize),
    firsts: &[usize],
    seconds: &[usize],
    changed: &mut bool,
) -> Result<(), AllocError>
    requires board { IsBoard board.now }
    requires all { HasAllEntries (setting_of board.now) sizes.old.entries }
    requires there { s < length board.now.symbols.now }
    requires firsts { (i : ℕ) → i < length firsts.now → (get_or firsts.now i 0 < board.now.points)
        × TakesParts (setting_of board.now) s parts.0 parts.1 (get_or firsts.now i 0) }
    requires seconds { (j : ℕ) → j < length seconds.now → get_or seconds.now j 0 < board.now.points }
    ensures { let g = setting_of board.now in
        OnOk result (Moved g s (AreOthers parts.0 parts.1 s)
        (RowsWithin g s parts.0 parts.1 firsts.now seconds.now (length firsts.now)) sizes.old changed.old sizes.new changed.new) }
{
    if board.limit == 0 {
        // No two trees have so few nodes together.
        return Ok(());
    }
    let ones = kept_below(alloc, board, &sizes.entries, parts.0, board.limit, firsts)?;
    let others = kept_below(alloc, board, &sizes.entries, parts.1, board.limit, seconds)?;
    relax_rows_within(
        board,
        sizes,
        s,
        parts,
        ones.as_slice(),
        others.as_slice(),
        changed,
    )
}

// `steps` goes through all pairs, this through those within the limit: rows of another kind, so the loops are apart, and their proofs.
/// So at each number of the one list with each of the other.
fn relax_rows_within(
    board: &Board,
    sizes: &mut Sizes,
    s: usize,
    parts: (usize, usize),
    firsts: &[usize],
    seconds: &[usize],
    changed: &mut bool,
) -> Result<(), AllocError>
    requires board { IsBoard board.now }
    requires all { HasAllEntries (setting_of board.now) sizes.old.entries }
    requires there { s < length board.now.symbols.now }
    requires firsts { (i : ℕ) → i < length firsts.now → (get_or firsts.now i 0 < board.now.points)
        × TakesParts (setting_of board.now) s parts.0 parts.1 (get_or firsts.now i 0) }
    requires seconds { (j : ℕ) → j < length seconds.now → get_or seconds.now j 0 < board.now.points }
    ensures { let g = setting_of board.now in
        OnOk result (Moved g s (AreOthers parts.0 parts.1 s)
        (RowsWithin g s parts.0 parts.1 firsts.now seconds.now (length firsts.now)) sizes.old changed.old sizes.new changed.new) }
{
    for first in firsts {
        relax_row_within(board, sizes, s, parts, *first, seconds, changed)?;
    }
    Ok(())
}

/// Those of the numbers at which the symbol's entry is below `most`.
fn kept_below(
    alloc: Global,
    board: &Board,
    entries: &SparseList<u16>,
    s: usize,
    most: u16,
    numbers: &[usize],
) -> Result<Sequence<usize>, AllocError>
    requires board { IsBoard board.now }
    requires all { HasAllEntries (setting_of board.now) entries.now }
    requires numbers { (i : ℕ) → i < length numbers.now → get_or numbers.now i 0 < board.now.points }
    ensures { IfOk result (λ kept. KeptBefore (setting_of board.now) s most entries.now numbers.now (length numbers.now) kept) }
{
    let mut kept = Sequence::new(alloc);
    for number in numbers {
        let is_small = entry(board, entries, s, *number) < most;
        keep_if(is_small, *number, &mut kept)?;
    }
    Ok(kept)
}

fn keep_if(wanted: bool, number: usize, kept: &mut Sequence<usize>) -> Result<(), AllocError>
    ensures { OnOk result (kept.new ≡ kept.old ++ (if wanted then number ∷ [] else [])) }
{
    if wanted {
        kept.push(number)?;
    }
    Ok(())
}

fn relax_row_within(
    board: &Board,
    sizes: &mut Sizes,
    s: usize,
    parts: (usize, usize),
    first: usize,
    seconds: &[usize],
    changed: &mut bool,
) -> Result<(), AllocError>
    requires board { IsBoard board.now }
    requires all { HasAllEntries (setting_of board.now) sizes.old.entries }
    requires place { IsPlace board.now s first }
    requires takes { TakesParts (setting_of board.now) s parts.0 parts.1 first }
    requires seconds { (j : ℕ) → j < length seconds.now → get_or seconds.now j 0 < board.now.points }
    ensures { let g = setting_of board.now in
        OnOk result (Moved g s (AreOthers parts.0 parts.1 s)
        (RowWithin g s parts.0 parts.1 first seconds.now (length seconds.now)) sizes.old changed.old sizes.new changed.new) }
{
    for second in seconds {
        relax_pair_within(board, sizes, s, parts, first, *second, changed)?;
    }
    Ok(())
}

fn relax_pair_within(
    board: &Board,
    sizes: &mut Sizes,
    s: usize,
    parts: (usize, usize),
    first: usize,
    second: usize,
    changed: &mut bool,
) -> Result<(), AllocError>
    requires board { IsBoard board.now }
    requires all { HasAllEntries (setting_of board.now) sizes.old.entries }
    requires place { IsPlace board.now s first }
    requires takes { TakesParts (setting_of board.now) s parts.0 parts.1 first }
    requires second { second < board.now.points }
    ensures { let g = setting_of board.now in
        OnOk result (Moved g s (AreOthers parts.0 parts.1 s)
        (WithinAt g s parts.0 parts.1 first second) sizes.old changed.old sizes.new changed.new) }
{
    let one = entry(board, &sizes.entries, parts.0, first) as u32;
    let other = entry(board, &sizes.entries, parts.1, second) as u32;
    if one + other >= board.limit as u32 {
        return Ok(());
    }
    relax_pair(board, sizes, s, parts, first, second, changed)
}

/// Notes a larger tree of the symbol at each sum of numbers of both lists at which none is known.
fn reach_sums(
    alloc: Global,
    board: &Board,
    sizes: &mut Sizes,
    s: usize,
    parts: (usize, usize),
    firsts: &[usize],
    seconds: &[usize],
    changed: &mut bool,
) -> Result<(), AllocError>
    requires board { IsBoard board.now }
    requires all { HasAllEntries (setting_of board.now) sizes.old.entries }
    requires there { s < length board.now.symbols.now }
    requires firsts { (i : ℕ) → i < length firsts.now → (get_or firsts.now i 0 < board.now.points)
        × TakesParts (setting_of board.now) s parts.0 parts.1 (get_or firsts.now i 0) }
    requires seconds { (j : ℕ) → j < length seconds.now → get_or seconds.now j 0 < board.now.points }
    requires known { let g = setting_of board.now in AreKnown g parts.0 firsts.now sizes.old.entries
        × AreKnown g parts.1 seconds.now sizes.old.entries }
    requires within { RowsWithin (setting_of board.now) s parts.0 parts.1 firsts.now seconds.now (length firsts.now) sizes.old.entries }
    ensures { let g = setting_of board.now in
        OnOk result (Moved g s (Unit {0}) (HasSums g s firsts.now seconds.now) sizes.old changed.old sizes.new changed.new) }
{
    let numbers = list_sums(alloc, firsts, seconds, board.k, board.tags)?;
    for number in numbers.as_slice() {
        reach_if(board, sizes, s, *number, changed)?;
    }
    Ok(())
}

fn reach_if(
    board: &Board,
    sizes: &mut Sizes,
    s: usize,
    number: usize,
    changed: &mut bool,
) -> Result<(), AllocError>
    requires board { IsBoard board.now }
    requires all { HasAllEntries (setting_of board.now) sizes.old.entries }
    requires place { IsPlace board.now s number }
    requires step { let g = setting_of board.now in board.now.limit + 1 < entry_at g sizes.old.entries s number
        → Step g (table_of g sizes.old.entries) s (point_of g.bound g.tags number) (board.now.limit + 1) }
    ensures moved { let g = setting_of board.now in
        OnOk result (Moved g s (Unit {0}) (λ es. entry_at g es s number ≤ g.limit + 1) sizes.old changed.old sizes.new changed.new) }
    ensures kept { OnOk result (KeepsKnown (setting_of board.now) sizes.old.entries sizes.new.entries) }
{
    if entry(board, &sizes.entries, s, number) <= board.limit + 1 {
        return Ok(());
    }
    reach(board, sizes, s, number, changed)
}
