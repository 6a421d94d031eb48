// Sums of sets of points.

ghost use Rattle.std.specs.Prelude.{◌≡◌, ◌<◌, ◌≤◌, ◌/◌, ℕ, List, [], length, get_or, IfOk, OnOk, IsTrue, IsFalse};
ghost use Rattle.std.specs.Int.{bit_at};
ghost use Rattle.pat_inclusion_spec.specs.Points.{grid_fits};
ghost use Rattle.pat_inclusion_spec.specs.bounds.Numbers.{points_in};
ghost use Rattle.pat_grid_sums.specs.Sets.{In, Puts, AnyBefore, AtNumber, IsAdded};
ghost use Rattle.pat_grid_sums.specs.Shapes.{IsShape, Has, IsGathered, IsFirst, IsRowSum, IsAlikeSum, IsFirstSum, AreSums};
ghost use Rattle.pat_grid_sums.specs.Systems.{IsSumOf};

use crate::bits::{has, join_all, list_all, no_bits, put_all};
use crate::moving::{all_bits, moved_by_each};
use crate::rows::{add_sums, has_sums};
use crate::shape::{Shape, shape_of};
use pat_sequences::Sequence;
use std::alloc::{AllocError, Global};

/// The numbers of the sums of a point of the one list with one of the other. Both become sets, as words of bits of all points, and it
/// takes time in proportion to the square of these words at most; where `k` is 64 or more a word has one point alone.
pub fn list_sums(
    alloc: Global,
    firsts: &[usize],
    seconds: &[usize],
    k: u32,
    tags: u8,
) -> Result<Sequence<usize>, AllocError>
    requires fits { IsTrue (grid_fits k tags) }
    requires firsts { (i : ℕ) → i < length firsts.now → get_or firsts.now i 0 < points_in k tags }
    requires seconds { (j : ℕ) → j < length seconds.now → get_or seconds.now j 0 < points_in k tags }
    ensures { IfOk result (λ numbers. AreSums k tags firsts.now seconds.now numbers) }
{
    let shape = shape_of(k, tags);
    let ones = set_of(alloc, firsts, shape)?;
    let others = set_of(alloc, seconds, shape)?;
    let sums = sums_of_sets(alloc, ones.as_slice(), others.as_slice(), shape)?;
    let points = shape.words * shape.width;
    let numbers = list_all(alloc, sums.as_slice(), points, shape.width)?;
    Ok(numbers)
}

/// The sums of a point of the one set with one of the other.
pub fn sums_of_sets(
    alloc: Global,
    ones: &[u64],
    others: &[u64],
    shape: Shape,
) -> Result<Sequence<u64>, AllocError>
    requires shape { (n : ℕ) × IsShape shape.k n shape }
    requires ones { length ones.now ≡ shape.words }
    requires others { length others.now ≡ shape.words }
    ensures { IfOk result (λ words. (n : ℕ) → IsShape shape.k n shape → Has (IsSumOf shape n ones.now others.now) shape.words words) }
{
    let moved = moved_by_each(alloc, ones, others, shape)?;
    let sums = sums_of(alloc, ones, moved.as_slice(), shape)?;
    Ok(sums)
}

/// The set of the points with these numbers.
fn set_of(alloc: Global, numbers: &[usize], shape: Shape) -> Result<Sequence<u64>, AllocError>
    requires shape { (n : ℕ) × IsShape shape.k n shape }
    requires numbers { (i : ℕ) → i < length numbers.now → get_or numbers.now i 0 / shape.width < shape.words }
    ensures { IfOk result (Has (AnyBefore (AtNumber numbers.now shape.width) (length numbers.now)) shape.words) }
{
    let mut words = no_bits(alloc, shape.words)?;
    put_all(&mut words, numbers, shape.width);
    Ok(words)
}

/// The sums of the points of the set with those that were moved by each place.
fn sums_of(
    alloc: Global,
    ones: &[u64],
    moved: &[Sequence<u64>],
    shape: Shape,
) -> Result<Sequence<u64>, AllocError>
    requires shape { (n : ℕ) × IsShape shape.k n shape }
    requires few { length moved.now ≤ 64 }
    requires moved { (l : ℕ) → l < length moved.now → length (get_or moved.now l []) ≤ shape.words }
    ensures { IfOk result (Has (AnyBefore (IsRowSum ones.now moved.now shape) (length ones.now)) shape.words) }
{
    let mut sums = no_bits(alloc, shape.words)?;
    for word in 0..ones.len() {
        add_alike(alloc, ones, word, moved, shape, &mut sums)?;
    }
    Ok(sums)
}

/// Adds those of the points of all words that are the same as this one, if it is the first of them: what was moved by the places of such
/// a word is put together once.
fn add_alike(
    alloc: Global,
    ones: &[u64],
    word: usize,
    moved: &[Sequence<u64>],
    shape: Shape,
    sums: &mut Sequence<u64>,
) -> Result<(), AllocError>
    requires shape { (n : ℕ) × IsShape shape.k n shape }
    requires word { word < length ones.now }
    requires few { length moved.now ≤ 64 }
    requires moved { (l : ℕ) → l < length moved.now → length (get_or moved.now l []) ≤ shape.words }
    requires long { length sums.old ≡ shape.words }
    ensures { OnOk result (Puts (IsFirstSum ones.now moved.now shape word) sums.old sums.new) }
{
    if ones[word] == 0 {
        return Ok(());
    }
    if has_before(ones, word) {
        return Ok(());
    }
    let mut words = no_bits(alloc, shape.words)?;
    add_word(ones, word, moved, &mut words);
    let gathered = words.as_slice();
    let bits = all_bits(gathered);
    for other in 0..ones.len() {
        add_if_alike(alloc, ones, word, other, gathered, bits, shape, sums)?;
    }
    Ok(())
}

/// Whether an earlier word is the same.
fn has_before(ones: &[u64], word: usize) -> bool
    requires { word < length ones.now }
    ensures no { IsFalse result → IsFirst ones.now word }
    ensures yes { IsTrue result → IsFirst ones.now word → ⊥ }
{
    for earlier in 0..word {
        if ones[earlier] == ones[word] {
            return true;
        }
    }
    false
}

/// Adds those of the points of the other word, if it is the same as the one for which the words were gathered. Where the sums have all of
/// the gathered words' bits already, nothing is new.
fn add_if_alike(
    alloc: Global,
    ones: &[u64],
    word: usize,
    other: usize,
    gathered: &[u64],
    bits: u64,
    shape: Shape,
    sums: &mut Sequence<u64>,
) -> Result<(), AllocError>
    requires shape { (n : ℕ) × IsShape shape.k n shape }
    requires word { word < length ones.now }
    requires other { other < length ones.now }
    requires long { length sums.old ≡ shape.words }
    requires gathered { length gathered.now ≡ shape.words }
    requires bits { (h q : ℕ) → h < length gathered.now → In gathered.now h q → bit_at bits q ≡ 1 }
    ensures { (moved : List (List ℕ)) → IsGathered moved shape (get_or ones.now word 0) gathered.now
        → OnOk result (Puts (IsAlikeSum ones.now moved shape word other) sums.old sums.new) }
{
    if ones[other] != ones[word] {
        return Ok(());
    }
    if has_sums(sums.as_slice(), bits, other, shape.k, shape.high, 0, 1) {
        return Ok(());
    }
    add_sums(alloc, gathered, other, shape.k, shape.high, sums)
}

/// Puts in what was moved by the places of one word.
fn add_word(ones: &[u64], word: usize, moved: &[Sequence<u64>], words: &mut Sequence<u64>)
    requires word { word < length ones.now }
    requires few { length moved.now ≤ 64 }
    requires moved { (l : ℕ) → l < length moved.now → length (get_or moved.now l []) ≤ length words.old }
    ensures { Puts (AnyBefore (IsAdded ones.now word moved.now) (length moved.now)) words.old words.new }
{
    for bit in 0..moved.len() {
        add_if(has(ones, word, bit), moved[bit].as_slice(), words);
    }
}

/// Puts in all points of the other set, if they are asked for.
fn add_if(wanted: bool, moved: &[u64], words: &mut Sequence<u64>)
    requires { length moved.now ≤ length words.old }
    ensures { Puts (λ h q. IsTrue wanted × In moved.now h q) words.old words.new }
{
    if wanted {
        join_all(moved, words);
    }
}
