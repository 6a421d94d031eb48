// Direct covers.
ghost use Rattle.std.specs.Prelude.{◌≡◌, Some, slice_get, IsTrue};
ghost use Rattle.pat_words_spec.specs.Words.{Word};
ghost use Rattle.pat_bags.specs.Views.{word_of};
ghost use Rattle.pat_inclusion_spec.specs.Counts.{most_tags};
ghost use Rattle.pat_inclusion_spec.specs.LinearSets.{InSets};
ghost use Rattle.pat_inclusion_spec.specs.Covers.{make_each as make_each_of, entry_covers as entry_covers_of, is_cover};
ghost use Rattle.pat_linear.specs.Views.{words_of, set_view, sets_view};
ghost use Rattle.pat_cover_certificates.specs.Views.{entry_view, entries_view};

use crate::combining::{makes, makes_from};
use crate::few_tags::sets_are_few;
use pat_bags::Bag;
use pat_linear::LinearSet;
use pat_sequences::Sequence;

/// What covers a set: the place of another set, how often its periods make up the base, and how often they make up each period.
#[derive(Drop)]
pub struct CoverEntry {
    pub set: u32,
    pub base: Sequence<u32>,
    pub periods: Sequence<Sequence<u32>>,
}

/// Whether all numbers of the cover are right: there is an entry for each set of the left, and it shows that the set lies in one of
/// the right. Takes no memory.
pub fn check_cover(left: &[LinearSet], right: &[LinearSet], cover: &[CoverEntry]) -> bool
    ensures value { result ≡ is_cover most_tags (sets_view left.now) (sets_view right.now) (entries_view cover.now) }
    ensures words { IsTrue result → (w : Word) → InSets (sets_view left.now) w → InSets (sets_view right.now) w }
{
    sets_are_few(left);
    sets_are_few(right);
    covers_each(left, right, cover)
}

fn covers_each(left: &[LinearSet], right: &[LinearSet], cover: &[CoverEntry]) -> bool
    ensures { result ≡ is_cover most_tags (sets_view left.now) (sets_view right.now) (entries_view cover.now) }
{
    let mut rest = cover;
    for set in left {
        match rest.split_first() {
            None => return false,
            Some((entry, entries)) => {
                if !is_covered(entry, set, right) {
                    return false;
                }
                rest = entries;
            }
        }
    }
    rest.is_empty()
}

/// Whether the entry shows that the set lies in the one that it names, if there is one.
fn is_covered(entry: &CoverEntry, set: &LinearSet, right: &[LinearSet]) -> bool
    ensures { result ≡ entry_covers_of most_tags (entry_view entry.now) (set_view set.now) (slice_get (sets_view right.now) entry.now.set) }
{
    match right.get(entry.set as usize) {
        None => false,
        Some(other) => entry_covers(entry, set, other),
    }
}

/// Whether the entry shows that the set lies in the other one.
fn entry_covers(entry: &CoverEntry, set: &LinearSet, other: &LinearSet) -> bool
    ensures { result ≡ entry_covers_of most_tags (entry_view entry.now) (set_view set.now) (Some (set_view other.now)) }
{
    makes_from(
        &other.base,
        other.periods.as_slice(),
        entry.base.as_slice(),
        &set.base,
    ) && make_each(
        other.periods.as_slice(),
        entry.periods.as_slice(),
        set.periods.as_slice(),
    )
}

/// Whether there are numbers for each word, and the periods taken so often make it.
fn make_each(periods: &[Bag], numbers: &[Sequence<u32>], words: &[Bag]) -> bool
    ensures { result ≡ make_each_of most_tags (words_of periods.now) numbers.now (words_of words.now) }
{
    let mut numbers = numbers;
    let mut words = words;
    loop {
        match numbers {
            [] => return words.is_empty(),
            [own, more @ ..] => match words {
                [] => return false,
                [word, rest @ ..] => {
                    if !makes(periods, own.as_slice(), word) {
                        return false;
                    }
                    numbers = more;
                    words = rest;
                }
            },
        }
    }
}
