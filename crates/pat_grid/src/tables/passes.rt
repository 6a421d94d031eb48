// Passes over the symbols that wait, until none does.
ghost use Rattle.std.specs.Prelude.{◌≡◌, ◌<◌, length, get_or, set, replicate, ◌*◌, ◌+◌, IfOk, OnOk, true, false};
ghost use Rattle.pat_inclusion_spec.specs.bounds.Tables.{IsDone};
ghost use Rattle.pat_inclusion_spec.specs.bounds.Numbers.{HasAllEntries, table_of};
ghost use Rattle.pat_grid.specs.tables.Views.{setting_of, IsBoard};
ghost use Rattle.pat_grid.specs.tables.Waiting.{HasUsers, Begins, Stands, with_waits, Looked, Passed};

use crate::tables::board::Board;
use crate::tables::sizes::{Scratch, Sizes};
use crate::tables::symbols::relax_symbol;
use crate::tables::users::users_of;
use pat_grid_points::{Chains, SparseList, forget};
use pat_grid_sums::{System, reached_entries};
use pat_sequences::Sequence;
use std::alloc::{AllocError, Global};

/// The sizes of least trees, up to the limit: a list of the board's points for each symbol. An entry one above the limit
/// says that there is a tree, but only larger ones; an entry two above it, that there is none. Where no size is told, sets of
/// points are enough.
pub fn least_sizes(alloc: Global, board: &Board) -> Result<SparseList<u16>, AllocError>
    requires { IsBoard board.now }
    ensures all { IfOk result (λ entries. HasAllEntries (setting_of board.now) entries) }
    ensures done { IfOk result (λ entries. IsDone (setting_of board.now) (table_of (setting_of board.now) entries)) }
{
    if board.limit > 0 {
        return lowered_sizes(alloc, board);
    }
    let system = System {
        k: board.k,
        tags: board.tags,
        symbols: board.symbols,
        roots: board.roots,
        given: board.given,
    };
    match reached_entries(alloc, &system)? {
        Some(entries) => Ok(entries),
        None => lowered_sizes(alloc, board),
    }
}

/// So entry by entry. A symbol is looked at again only where one that it is made of has changed.
fn lowered_sizes(alloc: Global, board: &Board) -> Result<SparseList<u16>, AllocError>
    requires { IsBoard board.now }
    ensures all { IfOk result (λ entries. HasAllEntries (setting_of board.now) entries) }
    ensures done { IfOk result (λ entries. IsDone (setting_of board.now) (table_of (setting_of board.now) entries)) }
{
    let users = users_of(alloc, board)?;
    let mut sizes = unknown_sizes(alloc, board)?;
    let mut scratch = Scratch {
        alloc,
        firsts: Sequence::new(alloc),
        seconds: Sequence::new(alloc),
    };
    let mut waits = vec![in alloc; true; board.symbols.len()]?;
    loop {
        let changed = pass(board, &users, &mut sizes, &mut scratch, &mut waits)?;
        if !changed {
            return Ok(sizes.entries);
        }
    }
}

/// The sizes before anything is known.
fn unknown_sizes(alloc: Global, board: &Board) -> Result<Sizes, AllocError>
    requires { IsBoard board.now }
    ensures { IfOk result (λ sizes. Begins (setting_of board.now) sizes) }
{
    let entries = unknown_entries(alloc, board)?;
    let reached = Chains::empty(alloc, board.symbols.len())?;
    Ok(Sizes {
        entries,
        reached,
        news: Sequence::new(alloc),
    })
}

/// An entry of no tree for each symbol and point.
fn unknown_entries(alloc: Global, board: &Board) -> Result<SparseList<u16>, AllocError>
    requires { IsBoard board.now }
    ensures { IfOk result (λ entries. entries ≡ replicate (length board.now.symbols.now * board.now.points) (board.now.limit + 2)) }
{
    match board.symbols.len().checked_mul(board.points) {
        Some(count) => {
            let entries = SparseList::repeat(alloc, board.limit + 2, count)?;
            Ok(entries)
        }
        None => Err(AllocError),
    }
}

/// Looks once at each symbol that waits, and says whether an entry was lowered.
fn pass(
    board: &Board,
    users: &Chains,
    sizes: &mut Sizes,
    scratch: &mut Scratch,
    waits: &mut [bool],
) -> Result<bool, AllocError>
    requires board { IsBoard board.now }
    requires users { HasUsers (setting_of board.now) users.now }
    requires stands { Stands (setting_of board.now) sizes.old waits.old }
    ensures { IfOk result (λ changed. Passed (setting_of board.now)
        (length board.now.symbols.now) sizes.old.entries sizes.new waits.new changed) }
{
    let mut changed = false;
    for s in 0..board.symbols.len() {
        look(board, users, s, sizes, scratch, waits, &mut changed)?;
    }
    Ok(changed)
}

/// Looks at the symbol, if it waits. Where an entry is lowered, those that are made of it wait.
fn look(
    board: &Board,
    users: &Chains,
    s: usize,
    sizes: &mut Sizes,
    scratch: &mut Scratch,
    waits: &mut [bool],
    changed: &mut bool,
) -> Result<(), AllocError>
    requires board { IsBoard board.now }
    requires users { HasUsers (setting_of board.now) users.now }
    requires stands { Stands (setting_of board.now) sizes.old waits.old }
    requires there { s < length board.now.symbols.now }
    ensures { OnOk result (Looked (setting_of board.now) s sizes.old.entries waits.old changed.old sizes.new waits.new changed.new) }
{
    let waited = stop_waiting(waits, s);
    if !waited {
        return Ok(());
    }
    let mut lowered = false;
    forget(&mut sizes.news);
    relax_symbol(board, sizes, scratch, s, &mut lowered)?;
    if lowered {
        let numbers = &mut scratch.firsts;
        users.list_from(s, 0, numbers)?;
        let_wait(numbers.as_slice(), waits);
        *changed = true;
    }
    Ok(())
}

/// Whether the symbol waits; from now on it doesn't.
fn stop_waiting(waits: &mut [bool], s: usize) -> bool
    requires { s < length waits.old }
    ensures was { result ≡ get_or waits.old s false }
    ensures now { waits.new ≡ set waits.old s false }
{
    let waited = waits[s];
    waits[s] = false;
    waited
}

/// All these symbols wait from now on.
fn let_wait(numbers: &[usize], waits: &mut [bool])
    ensures { waits.new ≡ with_waits numbers.now waits.old }
{
    for number in numbers {
        let_one_wait(*number, waits);
    }
}

/// The symbol waits from now on, if it is there.
fn let_one_wait(number: usize, waits: &mut [bool])
    ensures { waits.new ≡ set waits.old number true }
{
    if number < waits.len() {
        waits[number] = true;
    }
}
