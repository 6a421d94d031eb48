// What a least tree has at its root, by a table that is done.
ghost use Rattle.std.specs.Prelude.{◌≡◌, ◌<◌, ◌≤◌, [], length};
ghost use Rattle.pat_inclusion_spec.specs.bounds.Symbols.{SumSymbol, ProdSymbol, StarSymbol, LowerSymbol, symbol_at as symbol_in, root_at};
ghost use Rattle.pat_inclusion_spec.specs.bounds.Tables.{Step};
ghost use Rattle.pat_inclusion_spec.specs.bounds.Numbers.{HasAllEntries, point_of, table_of};
ghost use Rattle.pat_grid_points.specs.symbols.Views.{symbol_view};
ghost use Rattle.pat_grid.specs.tables.Views.{setting_of, IsBoard};
ghost use Rattle.pat_counterexample_search.specs.Choices.{entry_of, IsChoice, HasStep};

use crate::choice::{Choice, Place};
use crate::pairs::find_pair;
use pat_grid::{Board, entry};
use pat_grid_points::{SparseList, Symbol};

/// The root of a least tree at the place, and where its parts are.
pub fn choose(board: &Board, entries: &SparseList<u16>, place: Place) -> Choice
    requires board { IsBoard board.now }
    requires all { HasAllEntries (setting_of board.now) entries.now }
    requires there { place.symbol < length board.now.symbols.now }
    requires given { board.now.given.now ≡ [] }
    requires step { HasStep board.now entries.now place }
    ensures { IsChoice (setting_of board.now) entries.now place result }
{
    match symbol_at(board, place.symbol) {
        Symbol::One => Choice::Empty,
        Symbol::Tag(tag) => Choice::Tag(tag),
        Symbol::Sum(left, right) => choose_side(board, entries, place, left, right),
        Symbol::Prod(first, second) => choose_product(board, entries, place, first, second),
        Symbol::Star(part) => choose_star(board, entries, place, part),
        Symbol::Lower(variable) => choose_lower(board, entries, place, variable as usize),
        Symbol::Zero | Symbol::Given(_) => unreachable!(),
    }
}

/// The symbol with the number.
fn symbol_at(board: &Board, s: usize) -> Symbol
    requires { s < length board.now.symbols.now }
    ensures { symbol_in (setting_of board.now).flat s ≡ symbol_view result }
{
    board.symbols[s]
}

fn choose_side(
    board: &Board,
    entries: &SparseList<u16>,
    place: Place,
    left: usize,
    right: usize,
) -> Choice
    requires board { IsBoard board.now }
    requires all { HasAllEntries (setting_of board.now) entries.now }
    requires symbol { symbol_in (setting_of board.now).flat place.symbol ≡ SumSymbol left right }
    requires step { HasStep board.now entries.now place }
    ensures { IsChoice (setting_of board.now) entries.now place result }
{
    let size = entry(board, entries, place.symbol, place.number) as u32;
    let one = entry(board, entries, left, place.number) as u32;
    if one + 1 == size {
        return Choice::Left(Place {
            symbol: left,
            number: place.number,
        });
    }
    Choice::Right(Place {
        symbol: right,
        number: place.number,
    })
}

fn choose_product(
    board: &Board,
    entries: &SparseList<u16>,
    place: Place,
    first: usize,
    second: usize,
) -> Choice
    requires board { IsBoard board.now }
    requires all { HasAllEntries (setting_of board.now) entries.now }
    requires symbol { symbol_in (setting_of board.now).flat place.symbol ≡ ProdSymbol first second }
    requires step { HasStep board.now entries.now place }
    ensures { IsChoice (setting_of board.now) entries.now place result }
{
    let size = entry(board, entries, place.symbol, place.number);
    match find_pair(board, entries, (first, second), 0, place.number, size) {
        Some((one, other)) => Choice::Both(
            Place {
                symbol: first,
                number: one,
            },
            Place {
                symbol: second,
                number: other,
            },
        ),
        None => unreachable!(),
    }
}

/// The first part's word isn't empty, so its number isn't 0.
fn choose_star(board: &Board, entries: &SparseList<u16>, place: Place, part: usize) -> Choice
    requires board { IsBoard board.now }
    requires all { HasAllEntries (setting_of board.now) entries.now }
    requires symbol { symbol_in (setting_of board.now).flat place.symbol ≡ StarSymbol part }
    requires step { HasStep board.now entries.now place }
    ensures { IsChoice (setting_of board.now) entries.now place result }
{
    let size = entry(board, entries, place.symbol, place.number);
    match find_pair(board, entries, (part, place.symbol), 1, place.number, size) {
        Some((one, other)) => Choice::StarMore(
            Place {
                symbol: part,
                number: one,
            },
            Place {
                symbol: place.symbol,
                number: other,
            },
        ),
        None => Choice::StarEnd,
    }
}

fn choose_lower(board: &Board, entries: &SparseList<u16>, place: Place, variable: usize) -> Choice
    requires board { IsBoard board.now }
    requires all { HasAllEntries (setting_of board.now) entries.now }
    requires symbol { symbol_in (setting_of board.now).flat place.symbol ≡ LowerSymbol variable }
    requires step { HasStep board.now entries.now place }
    ensures { IsChoice (setting_of board.now) entries.now place result }
{
    Choice::Lower(Place {
        symbol: root_of(board, variable),
        number: place.number,
    })
}

/// The number of the symbol of the variable's lower bound; past all symbols where there is none.
fn root_of(board: &Board, variable: usize) -> usize
    ensures { result ≡ root_at (setting_of board.now).flat variable }
{
    match board.roots.get(variable) {
        Some(root) => *root,
        None => board.symbols.len(),
    }
}
