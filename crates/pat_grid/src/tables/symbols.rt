// One symbol relaxed: its entries are lowered to what its steps give.
ghost use Rattle.std.specs.Prelude.{◌≡◌, ◌<◌, ◌≤◌, length, get_or, true, false, ℕ, OnOk, slice_get};
ghost use Rattle.pat_inclusion_spec.specs.bounds.Symbols.{NoSymbol, OneSymbol, TagSymbol, SumSymbol, ProdSymbol, StarSymbol, LowerSymbol, GivenSymbol, symbol_at as symbol_in, root_at};
ghost use Rattle.pat_inclusion_spec.specs.bounds.Tables.{Table, Step};
ghost use Rattle.pat_inclusion_spec.specs.bounds.Numbers.{HasAllEntries, point_of};
ghost use Rattle.pat_grid_points.specs.symbols.Views.{symbol_view};
ghost use Rattle.pat_grid.specs.tables.Views.{setting_of, IsBoard};
ghost use Rattle.pat_grid.specs.tables.Moves.{entry_at, IsPlace, HasLists, Moved, ClosedAt, TakesParts, WholeRow, HeldBefore};
ghost use Rattle.pat_grid.specs.tables.Waiting.{IsNoPart};

use crate::tables::board::Board;
use crate::tables::entries::lower;
use crate::tables::listing::known;
use crate::tables::sizes::{Scratch, Sizes};
use crate::tables::steps::{relax_part, relax_row};
use crate::tables::sums::{goes_at_once, relax_either, relax_round};
use pat_bags::Bag;
use pat_grid_points::{SparseList, Symbol, next_held, number_of, take};
use pat_sequences::Sequence;
use std::alloc::{AllocError, Global};

/// Lowers the entries of the symbol to what its steps give.
pub fn relax_symbol(
    board: &Board,
    sizes: &mut Sizes,
    scratch: &mut Scratch,
    s: usize,
    changed: &mut bool,
) -> Result<(), AllocError>
    requires board { IsBoard board.now }
    requires all { HasAllEntries (setting_of board.now) sizes.old.entries }
    requires lists { HasLists (setting_of board.now) sizes.old }
    requires there { s < length board.now.symbols.now }
    ensures { OnOk result (Moved (setting_of board.now) s (IsNoPart (setting_of board.now) s) (ClosedAt (setting_of board.now) s)
        sizes.old changed.old sizes.new changed.new) }
{
    match symbol_at(board, s) {
        Symbol::Zero => Ok(()),
        Symbol::One => relax_one(board, sizes, s, changed),
        Symbol::Tag(tag) => relax_tag(board, sizes, s, tag, changed),
        Symbol::Sum(left, right) => {
            relax_sum(board, sizes, &mut scratch.firsts, s, left, right, changed)
        }
        Symbol::Prod(first, second) => {
            let alloc = scratch.alloc;
            let firsts = &mut scratch.firsts;
            let seconds = &mut scratch.seconds;
            let parts = (first, second);
            relax_product(alloc, board, sizes, firsts, seconds, s, parts, changed)
        }
        Symbol::Star(part) => {
            let alloc = scratch.alloc;
            let firsts = &mut scratch.firsts;
            let seconds = &mut scratch.seconds;
            relax_star(alloc, board, sizes, firsts, seconds, s, part, changed)
        }
        Symbol::Lower(variable) => {
            relax_lower(
                board,
                sizes,
                &mut scratch.firsts,
                s,
                variable as usize,
                changed,
            )
        }
        Symbol::Given(variable) => relax_given(board, sizes, s, variable as usize, changed),
    }
}

/// The symbol with the number.
pub fn symbol_at(board: &Board, s: usize) -> Symbol
    requires { s < length board.now.symbols.now }
    ensures { symbol_in (setting_of board.now).flat s ≡ symbol_view result }
{
    board.symbols[s]
}

fn relax_one(
    board: &Board,
    sizes: &mut Sizes,
    s: usize,
    changed: &mut bool,
) -> Result<(), AllocError>
    requires board { IsBoard board.now }
    requires all { HasAllEntries (setting_of board.now) sizes.old.entries }
    requires there { s < length board.now.symbols.now }
    requires symbol { symbol_in (setting_of board.now).flat s ≡ OneSymbol }
    ensures { OnOk result (Moved (setting_of board.now) s (IsNoPart (setting_of board.now) s)
        (ClosedAt (setting_of board.now) s) sizes.old changed.old sizes.new changed.new) }
{
    lower(board, sizes, s, 0, 1, changed)
}

fn relax_tag(
    board: &Board,
    sizes: &mut Sizes,
    s: usize,
    tag: u8,
    changed: &mut bool,
) -> Result<(), AllocError>
    requires board { IsBoard board.now }
    requires all { HasAllEntries (setting_of board.now) sizes.old.entries }
    requires there { s < length board.now.symbols.now }
    requires symbol { symbol_in (setting_of board.now).flat s ≡ TagSymbol tag }
    ensures { OnOk result (Moved (setting_of board.now) s (IsNoPart (setting_of board.now) s)
        (ClosedAt (setting_of board.now) s) sizes.old changed.old sizes.new changed.new) }
{
    let number = number_of(&Bag::one(tag), board.k, board.tags);
    lower(board, sizes, s, number, 1, changed)
}

fn relax_sum(
    board: &Board,
    sizes: &mut Sizes,
    listed: &mut Sequence<usize>,
    s: usize,
    left: usize,
    right: usize,
    changed: &mut bool,
) -> Result<(), AllocError>
    requires board { IsBoard board.now }
    requires all { HasAllEntries (setting_of board.now) sizes.old.entries }
    requires lists { HasLists (setting_of board.now) sizes.old }
    requires there { s < length board.now.symbols.now }
    requires symbol { symbol_in (setting_of board.now).flat s ≡ SumSymbol left right }
    ensures { OnOk result (Moved (setting_of board.now) s (IsNoPart (setting_of board.now) s)
        (ClosedAt (setting_of board.now) s) sizes.old changed.old sizes.new changed.new) }
{
    relax_part(board, sizes, listed, s, left, changed)?;
    relax_part(board, sizes, listed, s, right, changed)
}

fn relax_product(
    alloc: Global,
    board: &Board,
    sizes: &mut Sizes,
    firsts: &mut Sequence<usize>,
    seconds: &mut Sequence<usize>,
    s: usize,
    parts: (usize, usize),
    changed: &mut bool,
) -> Result<(), AllocError>
    requires board { IsBoard board.now }
    requires all { HasAllEntries (setting_of board.now) sizes.old.entries }
    requires lists { HasLists (setting_of board.now) sizes.old }
    requires there { s < length board.now.symbols.now }
    requires symbol { symbol_in (setting_of board.now).flat s ≡ ProdSymbol parts.0 parts.1 }
    ensures { OnOk result (Moved (setting_of board.now) s (IsNoPart (setting_of board.now) s)
        (ClosedAt (setting_of board.now) s) sizes.old changed.old sizes.new changed.new) }
{
    known(board, sizes, parts.0, 0, firsts)?;
    known(board, sizes, parts.1, 0, seconds)?;
    relax_either(
        alloc,
        board,
        sizes,
        s,
        parts,
        firsts.as_slice(),
        seconds.as_slice(),
        changed,
    )
}

/// A star is the end, or a word of its part that isn't empty and then the star. What is reached or
/// lowered is gone on from at once.
fn relax_star(
    alloc: Global,
    board: &Board,
    sizes: &mut Sizes,
    listed: &mut Sequence<usize>,
    seconds: &mut Sequence<usize>,
    s: usize,
    part: usize,
    changed: &mut bool,
) -> Result<(), AllocError>
    requires board { IsBoard board.now }
    requires all { HasAllEntries (setting_of board.now) sizes.old.entries }
    requires lists { HasLists (setting_of board.now) sizes.old }
    requires there { s < length board.now.symbols.now }
    requires symbol { symbol_in (setting_of board.now).flat s ≡ StarSymbol part }
    ensures { OnOk result (Moved (setting_of board.now) s (IsNoPart (setting_of board.now) s)
        (ClosedAt (setting_of board.now) s) sizes.old changed.old sizes.new changed.new) }
{
    known(board, sizes, part, 1, listed)?;
    let firsts = listed.as_slice();
    lower(board, sizes, s, 0, 1, changed)?;
    known(board, sizes, s, 0, seconds)?;
    if goes_at_once(board, firsts.len(), seconds.len()) {
        return relax_round(alloc, board, sizes, seconds, s, part, firsts, changed);
    }
    for first in firsts {
        relax_turn(board, sizes, seconds, s, part, *first, changed)?;
    }
    Ok(())
}

/// So by one number of the part: from all points at which the star has a tree, and from those that are lowered, until
/// none is.
fn relax_turn(
    board: &Board,
    sizes: &mut Sizes,
    listed: &mut Sequence<usize>,
    s: usize,
    part: usize,
    first: usize,
    changed: &mut bool,
) -> Result<(), AllocError>
    requires board { IsBoard board.now }
    requires all { HasAllEntries (setting_of board.now) sizes.old.entries }
    requires lists { HasLists (setting_of board.now) sizes.old }
    requires place { IsPlace board.now s first }
    requires takes { TakesParts (setting_of board.now) s part s first }
    ensures { OnOk result (Moved (setting_of board.now) s ⊥
        (WholeRow (setting_of board.now) s part s first) sizes.old changed.old sizes.new changed.new) }
{
    known(board, sizes, s, 0, listed)?;
    let seconds = listed.as_slice();
    relax_row(board, sizes, s, (part, s), first, seconds, changed)?;
    while !sizes.news.is_empty() {
        take(&mut sizes.news, listed);
        let lowered = listed.as_slice();
        relax_row(board, sizes, s, (part, s), first, lowered, changed)?;
    }
    Ok(())
}

fn relax_lower(
    board: &Board,
    sizes: &mut Sizes,
    listed: &mut Sequence<usize>,
    s: usize,
    variable: usize,
    changed: &mut bool,
) -> Result<(), AllocError>
    requires board { IsBoard board.now }
    requires all { HasAllEntries (setting_of board.now) sizes.old.entries }
    requires lists { HasLists (setting_of board.now) sizes.old }
    requires there { s < length board.now.symbols.now }
    requires symbol { symbol_in (setting_of board.now).flat s ≡ LowerSymbol variable }
    ensures { OnOk result (Moved (setting_of board.now) s (IsNoPart (setting_of board.now) s)
        (ClosedAt (setting_of board.now) s) sizes.old changed.old sizes.new changed.new) }
{
    relax_part(board, sizes, listed, s, root_of(board, variable), changed)
}

/// The number of the symbol of the variable's lower bound; past all symbols where there is none.
pub fn root_of(board: &Board, variable: usize) -> usize
    ensures { result ≡ root_at (setting_of board.now).flat variable }
{
    match board.roots.get(variable) {
        Some(root) => *root,
        None => board.symbols.len(),
    }
}

fn relax_given(
    board: &Board,
    sizes: &mut Sizes,
    s: usize,
    variable: usize,
    changed: &mut bool,
) -> Result<(), AllocError>
    requires board { IsBoard board.now }
    requires all { HasAllEntries (setting_of board.now) sizes.old.entries }
    requires there { s < length board.now.symbols.now }
    requires symbol { symbol_in (setting_of board.now).flat s ≡ GivenSymbol variable }
    ensures { OnOk result (Moved (setting_of board.now) s (IsNoPart (setting_of board.now) s)
        (ClosedAt (setting_of board.now) s) sizes.old changed.old sizes.new changed.new) }
{
    if variable < board.given.len() {
        let given = &board.given[variable];
        relax_held(board, sizes, s, &given.held, changed)
    } else {
        Ok(())
    }
}

/// Lowers the entries at the numbers that are held to 1.
fn relax_held(
    board: &Board,
    sizes: &mut Sizes,
    s: usize,
    held: &SparseList<bool>,
    changed: &mut bool,
) -> Result<(), AllocError>
    requires board { IsBoard board.now }
    requires all { HasAllEntries (setting_of board.now) sizes.old.entries }
    requires there { s < length board.now.symbols.now }
    requires counted { length held.now ≡ board.now.points }
    requires takes { (table : Table) (c : ℕ) → c < board.now.points → get_or held.now c false ≡ true
        → Step (setting_of board.now) table s (point_of board.now.k board.now.tags c) 1 }
    ensures { OnOk result (Moved (setting_of board.now) s (Unit {0})
        (HeldBefore (setting_of board.now) s held.now board.now.points) sizes.old changed.old sizes.new changed.new) }
{
    let mut number = next_held(held, 0);
    while number < board.points {
        lower(board, sizes, s, number, 1, changed)?;
        number = next_held(held, number + 1);
    }
    Ok(())
}
