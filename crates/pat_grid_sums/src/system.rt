// Symbols, and what their variables stand for.
ghost use Rattle.std.specs.Prelude.{◌≡◌, ◌<◌, ◌⊎◌, length, ℕ};
ghost use Rattle.pat_inclusion_spec.specs.bounds.Symbols.{symbol_at as symbol_in, root_at};
ghost use Rattle.pat_grid_points.specs.symbols.Views.{symbol_view};
ghost use Rattle.pat_grid_sums.specs.Systems.{setting_in, IsPart};

use pat_grid_points::{Grid, Symbol};

/// Symbols that name one another, and what their variables stand for.
#[derive(Clone, Copy)]
pub struct System<'a> {
    /// The greatest count of a point.
    pub k: u32,
    /// The number of tags.
    pub tags: u8,
    pub symbols: &'a [Symbol],
    /// Of each variable with a lower bound, the number of its bound's symbol.
    pub roots: &'a [usize],
    /// Of each variable with given words, the points.
    pub given: &'a [Grid],
}

/// The symbol with the number.
pub fn symbol_at(system: &System, s: usize) -> Symbol
    requires { s < length system.now.symbols.now }
    ensures { symbol_in (setting_in system.now).flat s ≡ symbol_view result }
{
    system.symbols[s]
}

/// The number of the symbol of the variable's lower bound; past all symbols where there is none.
pub fn root_of(system: &System, variable: usize) -> usize
    ensures { result ≡ root_at (setting_in system.now).flat variable }
{
    match system.roots.get(variable) {
        Some(root) => *root,
        None => system.symbols.len(),
    }
}

/// What the symbol is made of; a number past all symbols stands for no part.
pub fn parts_of(system: &System, s: usize) -> (usize, usize)
    requires { s < length system.now.symbols.now }
    ensures { (a : ℕ) → IsPart (setting_in system.now) s a → (result.0 ≡ a) ⊎ (result.1 ≡ a) }
{
    let none = system.symbols.len();
    match symbol_at(system, s) {
        Symbol::Zero | Symbol::One | Symbol::Tag(_) | Symbol::Given(_) => (none, none),
        Symbol::Sum(left, right) => (left, right),
        Symbol::Prod(first, second) => (first, second),
        Symbol::Star(part) => (part, s),
        Symbol::Lower(variable) => (root_of(system, variable as usize), none),
    }
}
