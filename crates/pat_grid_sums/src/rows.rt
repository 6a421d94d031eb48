// Sums of one point with each point.

ghost use Rattle.std.specs.Prelude.{◌≡◌, ◌<◌, ◌≤◌, ◌+◌, ◌*◌, ◌/◌, ◌%◌, ℕ, length, get_or, set, replicate, IfOk, OnOk, IsTrue};
ghost use Rattle.std.specs.Int.{bit_at};
ghost use Rattle.pat_inclusion_spec.specs.bounds.Numbers.{points_in};
ghost use Rattle.pat_grid_points.specs.Views.{summed};
ghost use Rattle.pat_grid_sums.specs.Sets.{Puts, AnyBefore, IsJoined};
ghost use Rattle.pat_grid_sums.specs.Shapes.{FilledTo, IsRow, IsAtSum, HasSums};
ghost use Rattle.pat_limits.specs.Limits.{most_points};

use crate::bits::join;
use pat_sequences::Sequence;
use std::alloc::{AllocError, Global};

/// The numbers of the sums of the point with each point, by the other one's number.
pub fn row_of(alloc: Global, point: usize, k: u32, tags: u8) -> Result<Sequence<usize>, AllocError>
    requires { points_in k tags ≤ most_points }
    ensures { IfOk result (λ row. IsRow k tags point row) }
{
    if tags == 0 {
        let mut row = Sequence::new(alloc);
        row.push(0)?;
        return Ok(row);
    }
    let base = k as usize + 1;
    let above = row_of(alloc, point / base, k, tags - 1)?;
    let count = above.len();
    let mut row = no_numbers(alloc, count * base)?;
    for made in 0..count {
        put_digits(
            above.as_slice()[made],
            point % base,
            k,
            made * base,
            &mut row,
        );
    }
    Ok(row)
}

/// Whether a set has all of these bits at the sums of the point with each point; the words of the sums are `scale` apart, from `from` on.
pub fn has_sums(
    words: &[u64],
    bits: u64,
    point: usize,
    k: u32,
    tags: u8,
    from: usize,
    scale: usize,
) -> bool
    requires few { points_in k tags * scale ≤ most_points }
    requires long { length words.now ≤ most_points }
    requires room { (v : ℕ) → v < points_in k tags → from + summed k tags point v * scale < length words.now }
    ensures { IsTrue result → HasSums k tags point words.now bits from scale }
{
    if tags == 0 {
        return has_bits(words[from], bits);
    }
    let base = k as usize + 1;
    for digit in point % base..base {
        let next = from + digit * scale;
        if !has_sums(words, bits, point / base, k, tags - 1, next, scale * base) {
            return false;
        }
    }
    true
}

/// Whether the word has all of the bits.
fn has_bits(word: u64, bits: u64) -> bool
    ensures { IsTrue result → (q : ℕ) → bit_at bits q ≡ 1 → bit_at word q ≡ 1 }
{
    word & bits == bits
}

/// So many numbers, each of them 0.
pub fn no_numbers(alloc: Global, count: usize) -> Result<Sequence<usize>, AllocError>
    ensures { IfOk result (λ numbers. numbers ≡ replicate count 0) }
{
    let zeros = vec![in alloc; 0usize; count]?;
    Ok(Sequence::from_vec(zeros))
}

/// Puts in the sums with the digit, one for each digit of the other point, from a place on.
fn put_digits(above: usize, digit: usize, k: u32, from: usize, row: &mut Sequence<usize>)
    requires room { (above + 1) * (k + 1) ≤ most_points }
    requires digit { digit ≤ k }
    requires places { from + (k + 1) ≤ length row.old }
    requires few { from ≤ most_points }
    ensures long { length row.new ≡ length row.old }
    ensures filled { (n v made : ℕ) → above ≡ summed k n (v / (k + 1)) made → digit ≡ v % (k + 1) → from ≡ made * (k + 1)
        → FilledTo k (n + 1) v (made * (k + 1)) row.old → FilledTo k (n + 1) v ((made + 1) * (k + 1)) row.new }
{
    let most = k as usize;
    for other in 0..most + 1 {
        put_number(
            row,
            from + other,
            above * (most + 1) + (digit + other).min(most),
        );
    }
}

/// Puts each word in at the sum of its point with this one. There is a row of sums for the first tags and one for the last: the words
/// whose points have the same first tags go by the row of the last.
pub fn add_sums(
    alloc: Global,
    words: &[u64],
    point: usize,
    k: u32,
    tags: u8,
    sums: &mut Sequence<u64>,
) -> Result<(), AllocError>
    requires few { points_in k tags ≤ most_points }
    requires words { length words.now ≡ points_in k tags }
    requires sums { length sums.old ≡ points_in k tags }
    ensures { OnOk result (Puts (AnyBefore (IsAtSum k tags point words.now) (points_in k tags)) sums.old sums.new) }
{
    let last = tags / 2;
    let width = (k as usize + 1).pow(last as u32);
    let firsts = row_of(alloc, point / width, k, tags - last)?;
    let lasts = row_of(alloc, point % width, k, last)?;
    for block in 0..firsts.len() {
        let base = firsts.as_slice()[block] * width;
        add_block(words, block * width, base, lasts.as_slice(), sums);
    }
    Ok(())
}

/// Puts in the words from a place on, each as far behind the base as the row says.
fn add_block(words: &[u64], from: usize, base: usize, row: &[usize], sums: &mut Sequence<u64>)
    requires long { from + length row.now ≤ length words.now }
    requires few { length sums.old ≤ most_points }
    requires row { (p : ℕ) → p < length row.now → base + get_or row.now p 0 < length sums.old }
    ensures { Puts (AnyBefore (IsJoined words.now from base row.now) (length row.now)) sums.old sums.new }
{
    for place in 0..row.len() {
        join(sums, base + row[place], words[from + place]);
    }
}

/// Puts the number in at the place.
pub fn put_number(numbers: &mut Sequence<usize>, place: usize, number: usize)
    requires { place < length numbers.old }
    ensures { numbers.new ≡ set numbers.old place number }
{
    numbers.items[place] = number;
}
