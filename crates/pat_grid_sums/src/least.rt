// The least sets of all symbols: each has a set, which grows until no step gives more.
ghost use Rattle.std.specs.Prelude.{◌≡◌, ◌<◌, ◌≤◌, ◌+◌, ◌^◌, false, ℕ, length, get_or, set, replicate, IfOk, IfSome, IsFalse};
ghost use Rattle.pat_grid_sums.specs.Sets.{In};
ghost use Rattle.pat_grid_sums.specs.Shapes.{IsShape};
ghost use Rattle.pat_grid_sums.specs.Systems.{setting_in, IsSystem, AreSets, IsPart, IsClosedAt, Stands, Looked, Passed, IsSettled, NoPoints};

use crate::bits::{is_same, no_bits};
use crate::rows::{no_numbers, put_number};
use crate::shape::Shape;
use crate::steps::grown;
use crate::system::{System, parts_of};
use pat_grid_points::{SparseList, Symbol, next_held};
use pat_sequences::Sequence;
use std::alloc::{AllocError, Global};

/// All sets together have fewer words than this: where there are more, most are of few points.
const WORDS_END: usize = 2_097_152;

/// Up to this count sets grow in a few rounds.
const MOST_COUNT: u32 = 5;

/// So many points make words of bits worth their while.
const MANY_POINTS: usize = 1024;

/// A grid that is given has few points, if it has no more than these.
const FEW_POINTS: usize = 256;

/// So many passes are made at most.
const MOST_PASSES: usize = 65_536;

/// The number of the look at which each symbol was looked at last, and at which its set changed last: 0 where that never was.
#[derive(Drop)]
struct Marks {
    looked: Sequence<usize>,
    changed: Sequence<usize>,
}

/// For each symbol the points at which it has a tree; none where they would take too much room, or too many passes.
pub fn least_sets(
    alloc: Global,
    system: &System,
    shape: Shape,
) -> Result<Option<Sequence<Sequence<u64>>>, AllocError>
    requires system { IsSystem system.now }
    requires shape { IsShape system.now.k system.now.tags shape }
    ensures { IfOk result (λ r. IfSome r (IsSettled (setting_in system.now) shape.width shape.words (length system.now.symbols.now))) }
{
    let count = system.symbols.len();
    if !is_dense(system, shape) {
        return Ok(None);
    }
    if is_large(count, shape) {
        return Ok(None);
    }
    let mut sets = no_sets(alloc, count, shape.words)?;
    let mut marks = no_marks(alloc, count)?;
    for number in 0..MOST_PASSES {
        let before = number * count;
        let changed = pass(alloc, system, shape, before, &mut sets, &mut marks)?;
        if !changed {
            return Ok(Some(sets));
        }
    }
    Ok(None)
}

/// Whether that many sets take too much room.
fn is_large(count: usize, shape: Shape) -> bool
    ensures { IsFalse result → count < 2097152 }
{
    count >= WORDS_END || count.saturating_mul(shape.words) >= WORDS_END
}

/// Whether sets may have so many points that words of bits are quicker than entries.
fn is_dense(system: &System, shape: Shape) -> bool {
    if shape.k > MOST_COUNT {
        return false;
    }
    reach_of(system) >= MANY_POINTS || is_any_given_dense(system)
}

/// How many points have no other tags than those of the symbols.
fn reach_of(system: &System) -> usize {
    let mut points: usize = 1;
    for tag in 0..system.tags {
        if is_there(system.symbols, tag) {
            points = points.saturating_mul(system.k as usize + 1);
        }
    }
    points
}

/// Whether one of the symbols is the tag.
fn is_there(symbols: &[Symbol], tag: u8) -> bool {
    for symbol in symbols {
        if is_tag(*symbol, tag) {
            return true;
        }
    }
    false
}

fn is_tag(symbol: Symbol, tag: u8) -> bool {
    match symbol {
        Symbol::Tag(own) => own == tag,
        _ => false,
    }
}

/// Whether one of the grids that are given has many points.
fn is_any_given_dense(system: &System) -> bool {
    for grid in system.given {
        if has_many(&grid.held) {
            return true;
        }
    }
    false
}

/// Whether many points are held.
fn has_many(held: &SparseList<bool>) -> bool {
    let mut number = next_held(held, 0);
    for _ in 0..FEW_POINTS {
        if number >= held.len() {
            return false;
        }
        number = next_held(held, number + 1);
    }
    true
}

/// So many sets of no point.
fn no_sets(alloc: Global, count: usize, words: usize) -> Result<Sequence<Sequence<u64>>, AllocError>
    ensures { IfOk result (λ sets. AreSets count words sets × NoPoints sets) }
{
    let mut sets = Sequence::new(alloc);
    for _ in 0..count {
        let set = no_bits(alloc, words)?;
        sets.push(set)?;
    }
    Ok(sets)
}

/// No symbol was looked at, and none changed.
fn no_marks(alloc: Global, count: usize) -> Result<Marks, AllocError>
    ensures { IfOk result (λ marks. (marks.looked ≡ replicate count 0) × (marks.changed ≡ replicate count 0)) }
{
    let looked = no_numbers(alloc, count)?;
    let changed = no_numbers(alloc, count)?;
    Ok(Marks { looked, changed })
}

/// Looks once at each symbol, and says whether a set has grown. So many looks were made before.
fn pass(
    alloc: Global,
    system: &System,
    shape: Shape,
    before: usize,
    sets: &mut Sequence<Sequence<u64>>,
    marks: &mut Marks,
) -> Result<bool, AllocError>
    requires system { IsSystem system.now }
    requires shape { IsShape system.now.k system.now.tags shape }
    requires room { before + length system.now.symbols.now < 2 ^ 62 }
    requires stands { Stands (setting_in system.now) shape.width shape.words (length system.now.symbols.now) (before + 1) sets.old marks.old.looked marks.old.changed }
    ensures { IfOk result (Passed (setting_in system.now) shape.width shape.words (length system.now.symbols.now) (length system.now.symbols.now) before sets.new marks.new.looked marks.new.changed) }
{
    let mut changed = false;
    for s in 0..system.symbols.len() {
        let grew = look(alloc, system, shape, s, before + s + 1, sets, marks)?;
        changed = is_either(changed, grew);
    }
    Ok(changed)
}

fn is_either(one: bool, other: bool) -> bool
    ensures { result ≡ false → (one ≡ false) × (other ≡ false) }
{
    one || other
}

/// Looks at the symbol, if one of its parts has changed since it was looked at, and says whether its set grows.
fn look(
    alloc: Global,
    system: &System,
    shape: Shape,
    s: usize,
    now: usize,
    sets: &mut Sequence<Sequence<u64>>,
    marks: &mut Marks,
) -> Result<bool, AllocError>
    requires system { IsSystem system.now }
    requires shape { IsShape system.now.k system.now.tags shape }
    requires there { s < length system.now.symbols.now }
    requires stands { Stands (setting_in system.now) shape.width shape.words (length system.now.symbols.now) now sets.old marks.old.looked marks.old.changed }
    ensures { IfOk result (Looked (setting_in system.now) shape.width shape.words (length system.now.symbols.now) now s sets.old sets.new marks.new.looked marks.new.changed) }
{
    if !waits(system, marks, s) {
        return Ok(false);
    }
    let words = grown(alloc, system, shape, sets.as_slice(), s)?;
    put_number(&mut marks.looked, s, now);
    if is_same(words.as_slice(), sets.as_slice()[s].as_slice()) {
        return Ok(false);
    }
    put_set(sets, s, words);
    put_number(&mut marks.changed, s, now);
    Ok(true)
}

/// Puts the set in at the symbol.
fn put_set(sets: &mut Sequence<Sequence<u64>>, s: usize, words: Sequence<u64>)
    requires { s < length sets.old }
    ensures { sets.new ≡ set sets.old s words }
{
    sets.items[s] = words;
}

/// Whether the symbol has to be looked at.
fn waits(system: &System, marks: &Marks, s: usize) -> bool
    requires there { s < length system.now.symbols.now }
    requires looked { s < length marks.now.looked }
    ensures { IsFalse result → (1 ≤ get_or marks.now.looked s 0)
        × ((a : ℕ) → IsPart (setting_in system.now) s a → get_or marks.now.changed a 0 < get_or marks.now.looked s 0) }
{
    let looked = marks.looked.as_slice()[s];
    if looked == 0 {
        return true;
    }
    let parts = parts_of(system, s);
    if has_changed(marks, parts.0, looked) {
        return true;
    }
    has_changed(marks, parts.1, looked)
}

/// Whether the symbol is there, and has changed since then.
fn has_changed(marks: &Marks, s: usize, since: usize) -> bool
    requires { 0 < since }
    ensures { IsFalse result → get_or marks.now.changed s 0 < since }
{
    match marks.changed.as_slice().get(s) {
        Some(changed) => *changed >= since,
        None => false,
    }
}
