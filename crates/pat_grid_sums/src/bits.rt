// Sets of points as words of bits.

ghost use Rattle.std.specs.Prelude.{◌≡◌, ◌<◌, ◌≤◌, ◌/◌, ◌*◌, ℕ, [], length, get_or, set, replicate, bit_or, ◌+◌, IfOk, OnOk, IsTrue, ◌↔◌};
ghost use Rattle.std.specs.Int.{bit_at};
ghost use Rattle.pat_grid_sums.specs.Sets.{In, Puts, AnyBefore, AtNumber, Lists};

use pat_sequences::Sequence;
use std::alloc::{AllocError, Global};

/// The number of bits of a word.
pub const WORD: usize = 64;

/// A set of no point, of so many words.
pub fn no_bits(alloc: Global, count: usize) -> Result<Sequence<u64>, AllocError>
    ensures { IfOk result (λ words. words ≡ replicate count 0) }
{
    let zeros = vec![in alloc; 0u64; count]?;
    Ok(Sequence::from_vec(zeros))
}

/// Whether the word has the bit.
pub fn has(words: &[u64], word: usize, bit: usize) -> bool
    requires word { word < length words.now }
    requires bit { bit < 64 }
    ensures { IsTrue result ↔ In words.now word bit }
{
    (words[word] >> (bit as u32)) & 1 == 1
}

/// Puts the bit into the word.
pub fn put(words: &mut Sequence<u64>, word: usize, bit: usize)
    requires word { word < length words.old }
    requires bit { bit < 64 }
    ensures { Puts (λ h q. (h ≡ word) × (q ≡ bit)) words.old words.new }
{
    exchange(words, word, 1u64 << (bit as u32));
}

/// Puts all bits of one word into another one.
pub fn join(words: &mut Sequence<u64>, word: usize, bits: u64)
    requires { word < length words.old }
    ensures { Puts (λ h q. (h ≡ word) × (bit_at bits q ≡ 1)) words.old words.new }
{
    exchange(words, word, bits);
}

fn exchange(words: &mut Sequence<u64>, word: usize, bits: u64)
    requires { word < length words.old }
    ensures { words.new ≡ set words.old word (bit_or (get_or words.old word 0) bits) }
{
    words.items[word] |= bits;
}

/// Puts the points with these numbers in.
pub fn put_all(words: &mut Sequence<u64>, numbers: &[usize], width: usize)
    requires some { 0 < width }
    requires room { width ≤ 64 }
    requires numbers { (i : ℕ) → i < length numbers.now → get_or numbers.now i 0 / width < length words.old }
    ensures { Puts (AnyBefore (AtNumber numbers.now width) (length numbers.now)) words.old words.new }
{
    for number in numbers {
        put(words, *number / width, *number % width);
    }
}

/// The numbers of the points, of so many, that are in the set.
pub fn list_all(
    alloc: Global,
    words: &[u64],
    points: usize,
    width: usize,
) -> Result<Sequence<usize>, AllocError>
    requires some { 0 < width }
    requires room { width ≤ 64 }
    requires points { (c : ℕ) → c < points → c / width < length words.now }
    ensures { IfOk result (λ numbers. Lists words.now width points numbers) }
{
    let mut numbers = Sequence::new(alloc);
    for number in 0..points {
        list_if(words, number, width, &mut numbers)?;
    }
    Ok(numbers)
}

/// Lists the number, if the point is in the set.
fn list_if(
    words: &[u64],
    number: usize,
    width: usize,
    numbers: &mut Sequence<usize>,
) -> Result<(), AllocError>
    requires some { 0 < width }
    requires room { width ≤ 64 }
    requires point { number / width < length words.now }
    ensures { Lists words.now width number numbers.old → OnOk result (Lists words.now width (number + 1) numbers.new) }
{
    if has(words, number / width, number % width) {
        numbers.push(number)?;
    }
    Ok(())
}

/// Puts in all points of the other set.
pub fn join_all(more: &[u64], words: &mut Sequence<u64>)
    requires { length more.now ≤ length words.old }
    ensures { Puts (In more.now) words.old words.new }
{
    for word in 0..more.len() {
        join(words, word, more[word]);
    }
}

/// Whether the words are the same.
pub fn is_same(one: &[u64], other: &[u64]) -> bool
    requires { length one.now ≡ length other.now }
    ensures { IsTrue result → (h : ℕ) → get_or one.now h 0 ≡ get_or other.now h 0 }
{
    for word in 0..one.len() {
        if one[word] != other[word] {
            return false;
        }
    }
    true
}
