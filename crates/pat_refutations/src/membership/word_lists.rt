// Lists of bags, as sets of words.
ghost use Rattle.std.specs.Prelude.{◌≢◌, ◌≡◌, ◌⊎◌, ◌↔◌, IsTrue, IfOk, OnOk};
ghost use Rattle.pat_words_spec.specs.Words.{Word, no_word, LiesIn};
ghost use Rattle.pat_bags.specs.Views.{word_of};
ghost use Rattle.pat_refutations.specs.membership.Listings.{HasWord, Only, Within, Reached};
ghost use Rattle.pat_words_spec.specs.Languages.{SumOf, StarOf};

use crate::membership::places::Places;
use pat_bags::Bag;
use pat_sequences::Sequence;
use std::alloc::{AllocError, Global};

/// Whether the list has the bag's word.
pub fn holds(words: &[Bag], word: &Bag) -> bool
    ensures { IsTrue result ↔ HasWord words.now (word_of word.now) }
{
    for own in words {
        if own.is_same(word) {
            return true;
        }
    }
    false
}

/// Appends the word where the list lacks it.
fn push_new(
    alloc: Global,
    words: &mut Sequence<Bag>,
    places: &mut Places,
    word: &Bag,
) -> Result<(), AllocError>
    ensures { OnOk result ((w : Word) → HasWord words.new w ↔ (HasWord words.old w ⊎ (word_of word.now ≡ w))) }
{
    if !places.find(words.as_slice(), word) {
        words.push(*word)?;
        places.note(alloc, words.as_slice())?;
    }
    Ok(())
}

/// Appends the words of the second list that the first one lacks.
pub fn push_all(alloc: Global, words: &mut Sequence<Bag>, more: &[Bag]) -> Result<(), AllocError>
    ensures { OnOk result ((w : Word) → HasWord words.new w ↔ (HasWord words.old w ⊎ HasWord more.now w)) }
{
    let mut places = Places::of(alloc, words.as_slice())?;
    for word in more {
        push_new(alloc, words, &mut places, word)?;
    }
    Ok(())
}

/// Appends each sum of the word and one of the others that lies in the limit.
fn push_sums(
    alloc: Global,
    words: &mut Sequence<Bag>,
    places: &mut Places,
    word: &Bag,
    others: &[Bag],
    limit: &Bag,
) -> Result<(), AllocError>
    ensures { OnOk result ((w : Word) → HasWord words.new w
        ↔ (HasWord words.old w ⊎ Within (word_of limit.now) (SumOf (Only (word_of word.now)) (HasWord others.now)) w)) }
{
    for other in others {
        match word.add_within(other, limit) {
            Some(sum) => {
                push_new(alloc, words, places, &sum)?;
            }
            None => {}
        }
    }
    Ok(())
}

/// The sums of a word of each list that lie in the limit.
pub fn sums(
    alloc: Global,
    left: &[Bag],
    right: &[Bag],
    limit: &Bag,
) -> Result<Sequence<Bag>, AllocError>
    ensures { IfOk result (λ words. (w : Word)
        → HasWord words w ↔ Within (word_of limit.now) (SumOf (HasWord left.now) (HasWord right.now)) w) }
{
    let mut words = Sequence::new(alloc);
    let mut places = Places::of(alloc, &[])?;
    for word in left {
        push_sums(alloc, &mut words, &mut places, word, right, limit)?;
    }
    Ok(words)
}

/// Appends the word and its sums with any number of steps, as far as they lie in the limit.
fn push_steps(
    alloc: Global,
    words: &mut Sequence<Bag>,
    places: &mut Places,
    start: &Bag,
    step: &Bag,
    limit: &Bag,
) -> Result<(), AllocError>
    requires start { LiesIn (word_of start.now) (word_of limit.now) }
    requires step { word_of step.now ≢ no_word }
    ensures { OnOk result ((w : Word) → HasWord words.new w
        ↔ (HasWord words.old w ⊎ Within (word_of limit.now) (Reached (Only (word_of start.now)) (word_of step.now)) w)) }
{
    let mut next = *start;
    loop {
        push_new(alloc, words, places, &next)?;
        match next.add_within(step, limit) {
            Some(sum) => next = sum,
            None => return Ok(()),
        }
    }
}

/// The words of the list and their sums with any number of steps, as far as they lie in the limit.
fn with_steps(
    alloc: Global,
    starts: &[Bag],
    step: &Bag,
    limit: &Bag,
) -> Result<Sequence<Bag>, AllocError>
    requires starts { (w : Word) → HasWord starts.now w → LiesIn w (word_of limit.now) }
    requires step { word_of step.now ≢ no_word }
    ensures { IfOk result (λ words. (w : Word) → HasWord words w
        ↔ Within (word_of limit.now) (Reached (HasWord starts.now) (word_of step.now)) w) }
{
    let mut words = Sequence::new(alloc);
    let mut places = Places::of(alloc, &[])?;
    for start in starts {
        push_steps(alloc, &mut words, &mut places, start, step, limit)?;
    }
    Ok(words)
}

/// The finite sums of words of the list that lie in the limit.
pub fn finite_sums(alloc: Global, steps: &[Bag], limit: &Bag) -> Result<Sequence<Bag>, AllocError>
    ensures { IfOk result (λ words. (w : Word) → HasWord words w ↔ Within (word_of limit.now) (StarOf (HasWord steps.now)) w) }
{
    let mut words = Sequence::new(alloc);
    words.push(Bag::empty())?;
    for step in steps {
        if !step.is_empty() {
            words = with_steps(alloc, words.as_slice(), step, limit)?;
        }
    }
    Ok(words)
}
