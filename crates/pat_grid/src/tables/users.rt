// Which symbols are made of which.
ghost use Rattle.std.specs.Prelude.{◌≡◌, ◌<◌, ◌⊎◌, length, ℕ, IfOk, OnOk};
ghost use Rattle.pat_grid.specs.tables.Views.{setting_of};
ghost use Rattle.pat_grid.specs.tables.Waiting.{IsPart, HasUsers, Notes};

use crate::tables::board::Board;
use crate::tables::symbols::{root_of, symbol_at};
use pat_grid_points::{Chains, Symbol};
use std::alloc::{AllocError, Global};

/// Of each symbol those that are made of it; a star is also made of itself.
pub fn users_of(alloc: Global, board: &Board) -> Result<Chains, AllocError>
    ensures { IfOk result (λ users. HasUsers (setting_of board.now) users) }
{
    let mut users = Chains::empty(alloc, board.symbols.len())?;
    for s in 0..board.symbols.len() {
        note_parts(board, s, &mut users)?;
    }
    Ok(users)
}

/// Notes the symbol for each of its parts.
fn note_parts(board: &Board, s: usize, users: &mut Chains) -> Result<(), AllocError>
    requires { s < length board.now.symbols.now }
    ensures { OnOk result (Notes (setting_of board.now) s users.old users.new) }
{
    let parts = parts_of(board, s);
    users.note(parts.0, s)?;
    users.note(parts.1, s)
}

/// What the symbol is made of; a number past all symbols stands for no part.
fn parts_of(board: &Board, s: usize) -> (usize, usize)
    requires { s < length board.now.symbols.now }
    ensures { (a : ℕ) → IsPart (setting_of board.now) s a → (result.0 ≡ a) ⊎ (result.1 ≡ a) }
{
    let none = board.symbols.len();
    match symbol_at(board, s) {
        Symbol::Zero | Symbol::One | Symbol::Tag(_) | Symbol::Given(_) => (none, none),
        Symbol::Sum(left, right) => (left, right),
        Symbol::Prod(first, second) => (first, second),
        Symbol::Star(part) => (part, s),
        Symbol::Lower(variable) => (root_of(board, variable as usize), none),
    }
}
