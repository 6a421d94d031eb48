// What the steps of one symbol give.
ghost use Rattle.std.specs.Prelude.{◌≡◌, ◌<◌, ◌≤◌, ◌⊎◌, ◌*◌, ◌/◌, ◌%◌, true, ℕ, length, get_or, IfOk};
ghost use Rattle.pat_inclusion_spec.specs.bounds.Numbers.{points_in};
ghost use Rattle.pat_grid_sums.specs.Sets.{In, Puts, AnyBefore};
ghost use Rattle.pat_grid_sums.specs.Shapes.{IsShape, Has};
ghost use Rattle.pat_grid_sums.specs.Systems.{setting_in, IsSystem, AreSets, IsStepped, IsGrown, IsSumOf, IsHeldAt, IsGivenAt, set_at};

use crate::bits::{join_all, no_bits, put};
use crate::shape::Shape;
use crate::sums::sums_of_sets;
use crate::system::{System, root_of, symbol_at};
use pat_bags::Bag;
use pat_grid_points::{SparseList, Symbol, next_held, number_of};
use pat_sequences::Sequence;
use std::alloc::{AllocError, Global};

/// The symbol's set, with all that a step from the sets of its parts gives.
pub fn grown(
    alloc: Global,
    system: &System,
    shape: Shape,
    sets: &[Sequence<u64>],
    s: usize,
) -> Result<Sequence<u64>, AllocError>
    requires system { IsSystem system.now }
    requires shape { IsShape system.now.k system.now.tags shape }
    requires sets { AreSets (length system.now.symbols.now) shape.words sets.now }
    requires there { s < length system.now.symbols.now }
    ensures { IfOk result (IsGrown (setting_in system.now) shape.width shape.words sets.now s) }
{
    let mut words = given_by_steps(alloc, system, shape, sets, s)?;
    join_set(sets, s, &mut words);
    Ok(words)
}

fn given_by_steps(
    alloc: Global,
    system: &System,
    shape: Shape,
    sets: &[Sequence<u64>],
    s: usize,
) -> Result<Sequence<u64>, AllocError>
    requires system { IsSystem system.now }
    requires shape { IsShape system.now.k system.now.tags shape }
    requires sets { AreSets (length system.now.symbols.now) shape.words sets.now }
    requires there { s < length system.now.symbols.now }
    ensures { IfOk result (IsStepped (setting_in system.now) shape.width shape.words sets.now s) }
{
    match symbol_at(system, s) {
        Symbol::Zero => no_bits(alloc, shape.words),
        Symbol::One => point_at(alloc, shape, 0),
        Symbol::Tag(tag) => {
            let number = number_of(&Bag::one(tag), system.k, system.tags);
            point_at(alloc, shape, number)
        }
        Symbol::Sum(left, right) => both_of(alloc, shape, sets, left, right),
        Symbol::Prod(first, second) => product_of(alloc, shape, sets, first, second),
        Symbol::Star(part) => star_of(alloc, shape, sets, part, s),
        Symbol::Lower(variable) => {
            let root = root_of(system, variable as usize);
            both_of(alloc, shape, sets, root, root)
        }
        Symbol::Given(variable) => given_of(alloc, system, shape, variable as usize),
    }
}

/// The set of one point.
fn point_at(alloc: Global, shape: Shape, number: usize) -> Result<Sequence<u64>, AllocError>
    requires shape { (n : ℕ) × IsShape shape.k n shape }
    requires number { number < shape.words * shape.width }
    ensures { IfOk result (Has (λ h q. (h ≡ number / shape.width) × (q ≡ number % shape.width)) shape.words) }
{
    let mut words = no_bits(alloc, shape.words)?;
    put(&mut words, number / shape.width, number % shape.width);
    Ok(words)
}

/// The points of both symbols.
fn both_of(
    alloc: Global,
    shape: Shape,
    sets: &[Sequence<u64>],
    left: usize,
    right: usize,
) -> Result<Sequence<u64>, AllocError>
    requires { (n : ℕ) × AreSets n shape.words sets.now }
    ensures { IfOk result (Has (λ h q. In (set_at sets.now left) h q ⊎ In (set_at sets.now right) h q) shape.words) }
{
    let mut words = no_bits(alloc, shape.words)?;
    join_set(sets, left, &mut words);
    join_set(sets, right, &mut words);
    Ok(words)
}

/// Puts in the points of the symbol, if it is there.
fn join_set(sets: &[Sequence<u64>], s: usize, words: &mut Sequence<u64>)
    requires { (n : ℕ) × AreSets n (length words.old) sets.now }
    ensures { Puts (In (set_at sets.now s)) words.old words.new }
{
    if s < sets.len() {
        join_all(sets[s].as_slice(), words);
    }
}

/// The sums of points of both symbols.
fn product_of(
    alloc: Global,
    shape: Shape,
    sets: &[Sequence<u64>],
    first: usize,
    second: usize,
) -> Result<Sequence<u64>, AllocError>
    requires shape { (n : ℕ) × IsShape shape.k n shape }
    requires sets { (n : ℕ) × AreSets n shape.words sets.now }
    ensures { IfOk result (λ words. (n : ℕ) → IsShape shape.k n shape
        → Has (IsSumOf shape n (set_at sets.now first) (set_at sets.now second)) shape.words words) }
{
    if first >= sets.len() {
        return no_bits(alloc, shape.words);
    }
    if second >= sets.len() {
        return no_bits(alloc, shape.words);
    }
    sums_of_sets(
        alloc,
        sets[first].as_slice(),
        sets[second].as_slice(),
        shape,
    )
}

/// The empty word, and sums of the part's points with those that the star has.
fn star_of(
    alloc: Global,
    shape: Shape,
    sets: &[Sequence<u64>],
    part: usize,
    s: usize,
) -> Result<Sequence<u64>, AllocError>
    requires shape { (n : ℕ) × IsShape shape.k n shape }
    requires sets { (n : ℕ) × AreSets n shape.words sets.now }
    ensures { IfOk result (λ words. (n : ℕ) → IsShape shape.k n shape
        → Has (λ h q. IsSumOf shape n (set_at sets.now part) (set_at sets.now s) h q ⊎ ((h ≡ 0) × (q ≡ 0))) shape.words words) }
{
    let mut words = product_of(alloc, shape, sets, part, s)?;
    put(&mut words, 0, 0);
    Ok(words)
}

/// The points that are given for the variable.
fn given_of(
    alloc: Global,
    system: &System,
    shape: Shape,
    variable: usize,
) -> Result<Sequence<u64>, AllocError>
    requires system { IsSystem system.now }
    requires shape { IsShape system.now.k system.now.tags shape }
    ensures { IfOk result (Has (IsGivenAt shape.width system.now.given.now variable) shape.words) }
{
    let mut words = no_bits(alloc, shape.words)?;
    if variable >= system.given.len() {
        return Ok(words);
    }
    put_held(&system.given[variable].held, shape.width, &mut words);
    Ok(words)
}

/// Puts in the points whose numbers are held.
fn put_held(held: &SparseList<bool>, width: usize, words: &mut Sequence<u64>)
    requires some { 0 < width }
    requires room { width ≤ 64 }
    requires held { (c : ℕ) → c < length held.now → c / width < length words.old }
    ensures { Puts (AnyBefore (IsHeldAt width held.now) (length held.now)) words.old words.new }
{
    let mut number = next_held(held, 0);
    while number < held.len() {
        put(words, number / width, number % width);
        number = next_held(held, number + 1);
    }
}
