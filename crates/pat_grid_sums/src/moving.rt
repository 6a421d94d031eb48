// A set of points moved by the places of a word.

ghost use Rattle.std.specs.Prelude.{◌≡◌, ◌<◌, ◌≤◌, ◌+◌, ◌-◌, ℕ, [], ◌∷◌, ◌++◌, length, get_or, IfOk, IsTrue, ◌↔◌};
ghost use Rattle.std.specs.Int.{bit_at};
ghost use Rattle.pat_inclusion_spec.specs.bounds.Numbers.{points_in};
ghost use Rattle.pat_grid_points.specs.Views.{summed};
ghost use Rattle.pat_grid_sums.specs.Sets.{In, Puts, AnyBefore, GoesBy, IsShifted, IsShiftedAny};
ghost use Rattle.pat_grid_sums.specs.Shapes.{IsShape, IsSum, Has, AreMoved};

use crate::bits::{WORD, join, no_bits, put};
use crate::rows::row_of;
use crate::shape::Shape;
use pat_sequences::Sequence;
use std::alloc::{AllocError, Global};

/// For each place in a word, the set moved by it; nothing is claimed of a place that no word of `ones` has.
pub fn moved_by_each(
    alloc: Global,
    ones: &[u64],
    others: &[u64],
    shape: Shape,
) -> Result<Sequence<Sequence<u64>>, AllocError>
    requires { (n : ℕ) × IsShape shape.k n shape }
    ensures { IfOk result (λ all. AreMoved ones.now others.now shape shape.width all) }
{
    let used = all_bits(ones);
    let mut all = Sequence::new(alloc);
    for place in 0..shape.width {
        let moved = moved_if(alloc, used, place, others, all.as_slice(), shape)?;
        all.push(moved)?;
    }
    Ok(all)
}

/// The bits that one of the words has.
pub fn all_bits(words: &[u64]) -> u64
    ensures { (h q : ℕ) → h < length words.now → In words.now h q → bit_at result q ≡ 1 }
{
    let mut bits = 0;
    for word in 0..words.len() {
        bits |= words[word];
    }
    bits
}

/// Whether the bit is there.
fn is_used(bits: u64, place: usize) -> bool
    requires { place < 64 }
    ensures { IsTrue result ↔ (bit_at bits place ≡ 1) }
{
    (bits >> (place as u32)) & 1 == 1
}

/// The set moved by the place, if it is used; else no word is made. Where the place less one unit is used as well, what was moved by that
/// goes on by the unit.
fn moved_if(
    alloc: Global,
    used: u64,
    place: usize,
    others: &[u64],
    all: &[Sequence<u64>],
    shape: Shape,
) -> Result<Sequence<u64>, AllocError>
    requires shape { (n : ℕ) × IsShape shape.k n shape }
    requires place { place < shape.width }
    requires before { AreMoved (used ∷ []) others.now shape place all.now }
    ensures { IfOk result (λ moved. AreMoved (used ∷ []) others.now shape (place + 1) (all.now ++ moved ∷ [])) }
{
    if !is_used(used, place) {
        return Ok(Sequence::new(alloc));
    }
    let unit = unit_of(place, shape.k, shape.low);
    if unit > 0 && is_used(used, place - unit) {
        return moved_by(alloc, unit, all[place - unit].as_slice(), shape);
    }
    moved_by(alloc, place, others, shape)
}

/// The unit of the last digit that isn't 0, if there is one.
fn unit_of(place: usize, k: u32, tags: u8) -> usize
    requires { place < points_in k tags }
    ensures within { result ≤ place }
    ensures sum { summed k tags result (place - result) ≡ place }
{
    if place == 0 {
        return 0;
    }
    let base = k as usize + 1;
    if place % base != 0 {
        return 1;
    }
    unit_of(place / base, k, tags - 1) * base
}

/// The set moved by the place.
fn moved_by(
    alloc: Global,
    place: usize,
    others: &[u64],
    shape: Shape,
) -> Result<Sequence<u64>, AllocError>
    requires { (n : ℕ) × IsShape shape.k n shape }
    ensures { IfOk result (Has (IsSum others.now shape place) (length others.now)) }
{
    let mut moved = no_bits(alloc, others.len())?;
    let row = row_of(alloc, place, shape.k, shape.low)?;
    let masks = masks_of(alloc, row.as_slice())?;
    move_all(others, masks.as_slice(), &mut moved);
    Ok(moved)
}

/// For each number below 64 the places that the row brings so much farther.
fn masks_of(alloc: Global, row: &[usize]) -> Result<Sequence<u64>, AllocError>
    requires few { length row.now ≤ 64 }
    requires row { (p : ℕ) → p < length row.now → (p ≤ get_or row.now p 0) × (get_or row.now p 0 < 64) }
    ensures { IfOk result (Has (AnyBefore (GoesBy row.now) (length row.now)) 64) }
{
    let mut masks = no_bits(alloc, WORD)?;
    for place in 0..row.len() {
        put(&mut masks, row[place] - place, place);
    }
    Ok(masks)
}

/// Puts in the bits of each word: those of each mask go as far as its place among the masks.
fn move_all(others: &[u64], masks: &[u64], moved: &mut Sequence<u64>)
    requires long { length others.now ≤ length moved.old }
    requires many { length masks.now ≡ 64 }
    requires room { (by p : ℕ) → In masks.now by p → p + by < 64 }
    ensures { Puts (AnyBefore (IsShiftedAny others.now masks.now) 64) moved.old moved.new }
{
    for by in 0..WORD {
        move_by(others, masks[by], by, moved);
    }
}

/// So those of one mask.
fn move_by(others: &[u64], mask: u64, by: usize, moved: &mut Sequence<u64>)
    requires long { length others.now ≤ length moved.old }
    requires by { by < 64 }
    requires room { (p : ℕ) → bit_at mask p ≡ 1 → p + by < 64 }
    ensures { Puts (AnyBefore (IsShifted others.now mask by) (length others.now)) moved.old moved.new }
{
    if mask == 0 {
        return;
    }
    for word in 0..others.len() {
        join(moved, word, (others[word] & mask) << (by as u32));
    }
}
