// Patterns laid out in symbols, where equal parts share theirs: each is worked out once.
ghost use Rattle.std.specs.Prelude.{◌≡◌, ◌<◌, ◌++◌, ◌∷◌, [], length, slice_get, Some, IfOk, IsTrue};
ghost use Rattle.pat_patterns.specs.Views.{pattern_view, patterns_view};
ghost use Rattle.pat_grid_points.specs.symbols.Views.{symbol_view, symbols_view};
ghost use Rattle.pat_solve_grids.specs.Laying.{IsPut, IsLaid, AreLaid};
ghost use Rattle.pat_solve_grids.specs.Looking.{IsLooked};

use pat_grid_points::Symbol;
use pat_patterns::{Pattern, size};
use pat_sequences::Sequence;
use std::alloc::{AllocError, Global};

/// How many slots are looked at for a symbol.
const LOOKS: u64 = 4;

/// How many slots there are for each part of a system's patterns, and how many more.
const SLOTS_EACH: usize = 4;

const SLOTS_BESIDE: usize = 256;

/// Symbols, most of them different.
#[derive(Drop)]
pub struct Shared {
    pub symbols: Sequence<Symbol>,
    /// Numbers of symbols, each in one of the slots of its hash. They say where to look: the symbol there is compared.
    slots: Sequence<usize>,
}

/// Where a symbol is found, or may be noted.
pub enum Looked {
    Found(usize),
    Missing(usize),
}

impl Shared {
    /// No symbols yet, and slots for those of a system and of sides that are no larger.
    pub fn for_system(alloc: Global, system: &[Pattern]) -> Result<Shared, AllocError>
        ensures { IfOk result (λ shared. shared.symbols ≡ []) }
    {
        let slots = vec![in alloc; usize::MAX; slots_for(system)]?;
        Ok(Shared {
            symbols: Sequence::new(alloc),
            slots: Sequence::from_vec(slots),
        })
    }

    /// Lays out the pattern, whose variables have lower bounds, and gives the number of its own symbol.
    pub fn lay(&mut self, p: &Pattern) -> Result<usize, AllocError>
        ensures { IfOk result (IsLaid (symbols_view self.old.symbols) (symbols_view self.new.symbols) (pattern_view p.now)) }
    {
        match p {
            Pattern::Zero => self.put(Symbol::Zero),
            Pattern::One => self.put(Symbol::One),
            Pattern::Tag(tag) => self.put(Symbol::Tag(*tag)),
            Pattern::Var(number) => self.put(Symbol::Lower(*number)),
            Pattern::Sum(left, right) => {
                let one = self.lay(left)?;
                let other = self.lay(right)?;
                self.put(Symbol::Sum(one, other))
            }
            Pattern::Prod(first, second) => {
                let one = self.lay(first)?;
                let other = self.lay(second)?;
                self.put(Symbol::Prod(one, other))
            }
            Pattern::Star(part) => {
                let own = self.lay(part)?;
                self.put(Symbol::Star(own))
            }
        }
    }

    /// The number of the symbol, which is appended if it isn't found.
    #[inline(never)]
    #[tactic(auto, using(crate::proofs::Laid::found_put, crate::proofs::Laid::new_put))]
    fn put(&mut self, symbol: Symbol) -> Result<usize, AllocError>
        ensures { IfOk result (IsPut (symbols_view self.old.symbols) (symbols_view self.new.symbols) (symbol_view symbol)) }
    {
        match look(self.symbols.as_slice(), self.slots.as_slice(), symbol) {
            Looked::Found(number) => Ok(number),
            Looked::Missing(slot) => self.append(symbol, slot),
        }
    }

    /// Appends the symbol, and notes its number in the slot.
    fn append(&mut self, symbol: Symbol, slot: usize) -> Result<usize, AllocError>
        ensures number { IfOk result (λ number. number ≡ length self.old.symbols) }
        ensures symbols { IfOk result (λ number. self.new.symbols ≡ self.old.symbols ++ symbol ∷ []) }
    {
        let number = self.symbols.len();
        self.symbols.push(symbol)?;
        note(&mut self.slots, slot, number);
        Ok(number)
    }
}

/// Lays out the patterns of a system, whose variables have them as lower bounds, and gives the numbers of their symbols.
pub fn lay_system(
    alloc: Global,
    system: &[Pattern],
    shared: &mut Shared,
) -> Result<Sequence<usize>, AllocError>
    ensures { IfOk result (AreLaid (symbols_view shared.old.symbols) (symbols_view shared.new.symbols) (patterns_view system.now)) }
{
    let mut roots = Sequence::new(alloc);
    for p in system {
        let root = shared.lay(p)?;
        roots.push(root)?;
    }
    Ok(roots)
}

/// So many slots that few symbols have no free one.
fn slots_for(system: &[Pattern]) -> usize {
    let mut parts: usize = 0;
    for p in system {
        parts = parts.saturating_add(size(p) as usize);
    }
    parts
        .saturating_mul(SLOTS_EACH)
        .saturating_add(SLOTS_BESIDE)
}

/// Looks for the symbol in the slots of its hash, up to one that is free. Where none is, the first one may be taken.
fn look(symbols: &[Symbol], slots: &[usize], symbol: Symbol) -> Looked
    ensures { IsLooked symbols.now symbol result }
{
    let hash = hash_of(symbol);
    for step in 0..LOOKS {
        let slot = slot_of(hash.wrapping_add(step), slots.len());
        let number = noted(slots, slot);
        if number >= symbols.len() {
            return Looked::Missing(slot);
        }
        if is_same(symbols[number], symbol) {
            return Looked::Found(number);
        }
    }
    Looked::Missing(slot_of(hash, slots.len()))
}

/// The number in the slot.
fn noted(slots: &[usize], slot: usize) -> usize {
    match slots.get(slot) {
        Some(number) => *number,
        None => usize::MAX,
    }
}

/// Notes the number in the slot.
fn note(slots: &mut Sequence<usize>, slot: usize, number: usize) {
    if slot < slots.len() {
        slots.replace(slot, number);
    }
}

fn slot_of(hash: u64, slots: usize) -> usize {
    if slots == 0 { 0 } else { hash as usize % slots }
}

/// Whether the symbols are the same.
#[tactic(auto, using(crate::proofs::Alike::same_tag, crate::proofs::Alike::same_sum, crate::proofs::Alike::same_product, crate::proofs::Alike::same_star, crate::proofs::Alike::same_lower))]
fn is_same(one: Symbol, other: Symbol) -> bool
    ensures { IsTrue result → one ≡ other }
{
    match (one, other) {
        (Symbol::Zero, Symbol::Zero) | (Symbol::One, Symbol::One) => true,
        (Symbol::Tag(tag), Symbol::Tag(own)) => tag == own,
        (Symbol::Sum(left, right), Symbol::Sum(own_left, own_right)) => {
            left == own_left && right == own_right
        }
        (Symbol::Prod(first, second), Symbol::Prod(own_first, own_second)) => {
            first == own_first && second == own_second
        }
        (Symbol::Star(part), Symbol::Star(own)) => part == own,
        (Symbol::Lower(variable), Symbol::Lower(own)) => variable == own,
        _ => false,
    }
}

/// A hash of the symbol.
fn hash_of(symbol: Symbol) -> u64 {
    match symbol {
        Symbol::Zero => mixed(0, 0, 0),
        Symbol::One => mixed(1, 0, 0),
        Symbol::Tag(tag) => mixed(2, tag as u64, 0),
        Symbol::Sum(left, right) => mixed(3, left as u64, right as u64),
        Symbol::Prod(first, second) => mixed(4, first as u64, second as u64),
        Symbol::Star(part) => mixed(5, part as u64, 0),
        Symbol::Lower(variable) => mixed(6, variable as u64, 0),
        Symbol::Given(variable) => mixed(7, variable as u64, 0),
    }
}

fn mixed(head: u64, one: u64, other: u64) -> u64 {
    with_part(with_part(head, one), other)
}

fn with_part(hash: u64, part: u64) -> u64 {
    let product = (hash ^ part).wrapping_mul(11400714819323198485);
    product ^ (product >> 32)
}
