// The entries of the least sets.
ghost use Rattle.std.specs.Prelude.{◌≡◌, ◌<◌, ◌≤◌, ◌+◌, ◌*◌, ◌^◌, ℕ, length, get_or, set, if◌then◌else◌, IfOk, IfSome, OnOk, IsTrue};
ghost use Rattle.std.specs.Int.{bit_at};
ghost use Rattle.pat_grid_sums.specs.Shapes.{IsShape};
ghost use Rattle.pat_grid_sums.specs.Systems.{setting_in, IsSystem, AreSets, AreReached, Written, WordWritten, EntriesTo};

use crate::bits::{WORD, has};
use crate::least::least_sets;
use crate::shape::{Shape, shape_of};
use crate::system::System;
use pat_grid_points::SparseList;
use pat_sequences::Sequence;
use std::alloc::{AllocError, Global};

/// The entries of all symbols at all points, where no size is told: 1 where the symbol has a tree, 2 where it has none. There are none
/// where sets would take too much room, or too many passes.
pub fn reached_entries(
    alloc: Global,
    system: &System,
) -> Result<Option<SparseList<u16>>, AllocError>
    requires { IsSystem system.now }
    ensures { IfOk result (λ r. IfSome r (AreReached (setting_in system.now))) }
{
    let shape = shape_of(system.k, system.tags);
    match least_sets(alloc, system, shape)? {
        Some(sets) => {
            let entries = entries_of(alloc, sets.as_slice(), shape)?;
            Ok(Some(entries))
        }
        None => Ok(None),
    }
}

/// The entries of the sets.
fn entries_of(
    alloc: Global,
    sets: &[Sequence<u64>],
    shape: Shape,
) -> Result<SparseList<u16>, AllocError>
    requires shape { (n : ℕ) × IsShape shape.k n shape }
    requires sets { AreSets (length sets.now) shape.words sets.now }
    requires few { length sets.now < 2097152 }
    ensures { IfOk result (EntriesTo sets.now shape.width (shape.words * shape.width) (length sets.now)) }
{
    let points = shape.words * shape.width;
    let mut entries = SparseList::repeat(alloc, 2, sets.len() * points)?;
    for s in 0..sets.len() {
        put_entries(sets[s].as_slice(), shape.width, s * points, &mut entries)?;
    }
    Ok(entries)
}

/// Puts in the entries of a set, from a place on.
fn put_entries(
    words: &[u64],
    width: usize,
    from: usize,
    entries: &mut SparseList<u16>,
) -> Result<(), AllocError>
    requires some { 0 < width }
    requires width { width ≤ 64 }
    requires room { from + length words.now * width ≤ length entries.old }
    requires fits { from + length words.now * width < 2 ^ 64 }
    requires none { (i : ℕ) → from ≤ i → i < from + length words.now * width → get_or entries.old i 2 ≡ 2 }
    ensures { OnOk result (Written words.now width from (length words.now * width) entries.old entries.new) }
{
    for word in 0..words.len() {
        put_word(words, word, width, from + word * width, entries)?;
    }
    Ok(())
}

/// So those of one word.
fn put_word(
    words: &[u64],
    word: usize,
    width: usize,
    from: usize,
    entries: &mut SparseList<u16>,
) -> Result<(), AllocError>
    requires word { word < length words.now }
    requires some { 0 < width }
    requires width { width ≤ 64 }
    requires room { from + width ≤ length entries.old }
    requires fits { from + width < 2 ^ 64 }
    requires none { (i : ℕ) → from ≤ i → i < from + width → get_or entries.old i 2 ≡ 2 }
    ensures { OnOk result (WordWritten words.now word from width entries.old entries.new) }
{
    if words[word] == 0 {
        return Ok(());
    }
    if is_full(words[word], width) {
        return entries.fill(from, width, 1);
    }
    for bit in 0..width {
        put_one(has(words, word, bit), from + bit, entries)?;
    }
    Ok(())
}

/// Whether the word is just the bits of so many places, all of them.
fn is_full(word: u64, width: usize) -> bool
    requires some { 0 < width }
    requires width { width ≤ 64 }
    ensures { IsTrue result → (q : ℕ) → q < width → bit_at word q ≡ 1 }
{
    word == u64::MAX >> ((WORD - width) as u32)
}

/// Puts in the entry of a tree, if there is one.
fn put_one(wanted: bool, place: usize, entries: &mut SparseList<u16>) -> Result<(), AllocError>
    requires { place < length entries.old }
    ensures { OnOk result (entries.new ≡ (if wanted then set entries.old place 1 else entries.old)) }
{
    if wanted {
        entries.set(place, 1)?;
    }
    Ok(())
}
