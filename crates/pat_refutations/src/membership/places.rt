// Where words stand in a list, by their hashes.
ghost use Rattle.std.specs.Prelude.{◌<◌, length, IsTrue};
ghost use Rattle.pat_bags.specs.Views.{word_of};
ghost use Rattle.pat_refutations.specs.membership.Listings.{HasWord};

use pat_bags::Bag;
use std::alloc::{AllocError, Global};

/// Stands in a slot that is free.
const NOWHERE: usize = usize::MAX;

/// Places of the words of a list, each in the first slot that was free from its word's hash on. They say where to look: the
/// word that stands there is compared, so a place that is wrong costs time and does no harm.
#[derive(Drop)]
pub struct Places {
    slots: Vec<usize>,
}

impl Places {
    /// The places of all words of the list.
    pub fn of(alloc: Global, words: &[Bag]) -> Result<Places, AllocError> {
        let mut slots = vec![in alloc; NOWHERE; words.len().saturating_mul(4)]?;
        note_all(&mut slots, words);
        Ok(Places { slots })
    }

    /// Notes the place of the list's last word, those of the others being noted.
    pub fn note(&mut self, alloc: Global, words: &[Bag]) -> Result<(), AllocError> {
        if words.len() > self.slots.len() / 2 {
            *self = Places::of(alloc, words)?;
            return Ok(());
        }
        note_last(&mut self.slots, words);
        Ok(())
    }

    /// Whether the word was found in the list.
    pub fn find(&self, words: &[Bag], word: &Bag) -> bool
        ensures { IsTrue result → HasWord words.now (word_of word.now) }
    {
        is_found(&self.slots, words, word)
    }
}

fn is_found(slots: &[usize], words: &[Bag], word: &Bag) -> bool
    ensures { IsTrue result → HasWord words.now (word_of word.now) }
{
    let count = slots.len();
    if count == 0 {
        return false;
    }
    let mut slot = first_slot(word, count);
    for _ in 0..count {
        let place = slots[slot];
        if stands_at(words, place, word) {
            return true;
        }
        if place == NOWHERE {
            return false;
        }
        slot = next_slot(slot, count);
    }
    false
}

/// Whether the word stands in the list at the place.
fn stands_at(words: &[Bag], place: usize, word: &Bag) -> bool
    ensures { IsTrue result → HasWord words.now (word_of word.now) }
{
    place < words.len() && words[place].is_same(word)
}

/// The slot from which on the word's place is put, by a hash of its counts.
fn first_slot(word: &Bag, slots: usize) -> usize
    requires { 0 < slots }
    ensures { result < slots }
{
    let mut hash = 0u64;
    for count in word.counts.as_slice() {
        hash = hash
            .wrapping_add(*count as u64 + 1)
            .wrapping_mul(6364136223846793005);
    }
    (hash >> 32) as usize % slots
}

/// The slot behind, or the first one behind the last.
fn next_slot(slot: usize, slots: usize) -> usize
    requires { slot < slots }
    ensures { result < slots }
{
    if slot + 1 == slots { 0 } else { slot + 1 }
}

fn note_all(slots: &mut [usize], words: &[Bag]) {
    for place in 0..words.len() {
        put(slots, &words[place], place);
    }
}

fn note_last(slots: &mut [usize], words: &[Bag]) {
    if !words.is_empty() {
        let place = words.len() - 1;
        put(slots, &words[place], place);
    }
}

/// Puts the word's place into the first slot that is free.
fn put(slots: &mut [usize], word: &Bag, place: usize) {
    let count = slots.len();
    if count == 0 {
        return;
    }
    let mut slot = first_slot(word, count);
    for _ in 0..count {
        if slots[slot] == NOWHERE {
            slots[slot] = place;
            return;
        }
        slot = next_slot(slot, count);
    }
}
