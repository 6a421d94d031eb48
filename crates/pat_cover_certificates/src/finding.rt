// The search for a direct cover.
ghost use Rattle.std.specs.Prelude.{◌≡◌, ◌↔◌, true, ◌<◌, ◌+◌, ◌*◌, ◌^◌, ℕ, [], ◌∷◌, Some, None, length, IfOk, IfSome, IsSome, IsTrue};
ghost use Rattle.pat_bags.specs.Views.{word_of};
ghost use Rattle.pat_inclusion_spec.specs.Counts.{most_tags};
ghost use Rattle.pat_inclusion_spec.specs.Covers.{is_cover, IsDirectlyCovered};
ghost use Rattle.pat_linear.specs.Views.{words_of, set_view, sets_view};
ghost use Rattle.pat_cover_certificates.specs.Views.{entries_view, entry_if, cover_if};
ghost use Rattle.pat_cover_certificates.specs.Indexes.{place_of, Indexes, AreRising, FindsAmong};
ghost use Rattle.pat_cover_certificates.specs.Firsts.{FindsFrom, FindsEach, FindsEntryIn, FindsEntry, FindsCover};

use crate::coefficients::{counts_are_all, find_numbers, tags_are_few};
use crate::cover::CoverEntry;
use crate::few_tags::sets_are_few;
use crate::set_index::{SetIndex, index_of};
use pat_bags::Bag;
use pat_linear::{LinearSet, same_counts};
use pat_sequences::Sequence;
use std::alloc::{AllocError, Global};

/// A direct cover of the left sets by the right ones, or `None` exactly where they are not directly covered. Each set is covered by
/// the first one that can, and its base and each of its periods by the first numbers in the order of lists.
pub fn find_cover(
    alloc: Global,
    left: &[LinearSet],
    right: &[LinearSet],
) -> Result<Option<Sequence<CoverEntry>>, AllocError>
    requires { length right.now < 2 ^ 32 }
    ensures exact { IfOk result (λ found. IsSome found ↔ IsDirectlyCovered (sets_view left.now) (sets_view right.now)) }
    ensures checks { IfOk result (λ found. IfSome found (λ cover. is_cover most_tags (sets_view left.now) (sets_view right.now)
        (entries_view cover) ≡ true)) }
    ensures first { IfOk result (λ found. FindsCover most_tags (sets_view left.now) (sets_view right.now) (cover_if found)) }
{
    sets_are_few(left);
    sets_are_few(right);
    let index = index_of(alloc, right)?;
    entries_for(alloc, left, right, &index)
}

/// For each set of the left its first entry, if there are any.
fn entries_for(
    alloc: Global,
    left: &[LinearSet],
    right: &[LinearSet],
    index: &SetIndex,
) -> Result<Option<Sequence<CoverEntry>>, AllocError>
    requires few { length right.now < 2 ^ 32 }
    requires index { Indexes right.now (length right.now) index.now.by_base.entries index.now.others }
    ensures { IfOk result (λ found. FindsCover most_tags (sets_view left.now) (sets_view right.now) (cover_if found)) }
{
    let mut cover = Sequence::new(alloc);
    for set in left {
        match entry_for(alloc, set, right, index)? {
            None => return Ok(None),
            Some(entry) => cover.push(entry)?,
        }
    }
    Ok(Some(cover))
}

/// The first entry that shows that the set lies in one of the right ones, if there is one.
fn entry_for(
    alloc: Global,
    set: &LinearSet,
    right: &[LinearSet],
    index: &SetIndex,
) -> Result<Option<CoverEntry>, AllocError>
    requires few { length right.now < 2 ^ 32 }
    requires index { Indexes right.now (length right.now) index.now.by_base.entries index.now.others }
    ensures { IfOk result (λ found. FindsEntry most_tags (set_view set.now) (sets_view right.now) (entry_if found)) }
{
    counts_are_all(&set.base);
    match index.by_base.get(set.base.counts.as_slice()) {
        None => entry_among(alloc, set, right, index.others.as_slice(), right.len()),
        Some(place) => entry_up_to(alloc, set, right, index, *place),
    }
}

/// The same where the first set that holds just the set's base stands at this place.
fn entry_up_to(
    alloc: Global,
    set: &LinearSet,
    right: &[LinearSet],
    index: &SetIndex,
    place: u32,
) -> Result<Option<CoverEntry>, AllocError>
    requires index { Indexes right.now (length right.now) index.now.by_base.entries index.now.others }
    requires place { place_of index.now.by_base.entries set.now.base.counts ≡ Some place }
    requires counts { length set.now.base.counts ≡ 32 }
    ensures { IfOk result (λ found. FindsEntry most_tags (set_view set.now) (sets_view right.now) (entry_if found)) }
{
    let others = index.others.as_slice();
    match entry_in(alloc, set, &right[place as usize], place)? {
        None => entry_among(alloc, set, right, others, right.len()),
        Some(entry) => match entry_among(alloc, set, right, others, place as usize)? {
            None => Ok(Some(entry)),
            Some(earlier) => Ok(Some(earlier)),
        },
    }
}

/// The first entry that shows that the set lies in one of those at the others' places before the end, if there is one.
fn entry_among(
    alloc: Global,
    set: &LinearSet,
    right: &[LinearSet],
    others: &[u32],
    end: usize,
) -> Result<Option<CoverEntry>, AllocError>
    requires { AreRising others.now (length right.now) }
    ensures { IfOk result (λ found. FindsAmong most_tags set.now right.now others.now end found) }
{
    for place in others {
        if *place as usize >= end {
            return Ok(None);
        }
        let other = &right[*place as usize];
        match entry_in(alloc, set, other, *place)? {
            None => {}
            Some(entry) => return Ok(Some(entry)),
        }
    }
    Ok(None)
}

/// The first entry that shows that the set lies in the other one, which stands at this place.
fn entry_in(
    alloc: Global,
    set: &LinearSet,
    other: &LinearSet,
    place: u32,
) -> Result<Option<CoverEntry>, AllocError>
    ensures covers { IfOk result (λ found. FindsEntryIn most_tags (set_view set.now) (set_view other.now) (entry_if found)) }
    ensures place { IfOk result (λ found. IfSome found (λ entry. entry.set ≡ place)) }
{
    let base = match numbers_from(alloc, &other.base, other.periods.as_slice(), &set.base)? {
        None => return Ok(None),
        Some(base) => base,
    };
    match numbers_each(alloc, other.periods.as_slice(), set.periods.as_slice())? {
        None => Ok(None),
        Some(periods) => Ok(Some(CoverEntry {
            set: place,
            base,
            periods,
        })),
    }
}

/// Whether it is seen that the periods don't make the word from the base, where there is one at most.
fn is_apart(base: &Bag, periods: &[Bag], word: &Bag) -> bool
    ensures { IsTrue result → FindsFrom most_tags (word_of base.now) (words_of periods.now) (word_of word.now) None }
{
    match periods {
        [] => !same_counts(word, base),
        [period] => is_missed(base, period, word),
        _ => false,
    }
}

/// Whether it is seen that the period doesn't make the word from the base: its first tag tells.
fn is_missed(base: &Bag, period: &Bag, word: &Bag) -> bool
    ensures { IsTrue result → FindsFrom most_tags (word_of base.now) (word_of period.now ∷ []) (word_of word.now) None }
{
    for t in 0..32u8 {
        let step = period.get(t);
        if step > 0 {
            let from = base.get(t);
            let to = word.get(t);
            return steps_miss(from, step, to);
        }
    }
    false
}

/// Whether the step doesn't lead from the one count to the other, however often it is taken.
fn steps_miss(from: u32, step: u32, to: u32) -> bool
    requires { 0 < step }
    ensures { IsTrue result → (times : ℕ) → to ≡ from + times * step → ⊥ }
{
    from > to || (to - from) % step != 0
}

/// The first numbers by which the periods make the word from the base, if there are any.
fn numbers_from(
    alloc: Global,
    base: &Bag,
    periods: &[Bag],
    word: &Bag,
) -> Result<Option<Sequence<u32>>, AllocError>
    ensures { IfOk result (λ found. FindsFrom most_tags (word_of base.now) (words_of periods.now) (word_of word.now) found) }
{
    tags_are_few(base);
    if is_apart(base, periods, word) {
        return Ok(None);
    }
    match word.sub(base) {
        None => Ok(None),
        Some(rest) => find_numbers(alloc, periods, &rest),
    }
}

/// For each word the first numbers by which the periods make it, if there are any.
fn numbers_each(
    alloc: Global,
    periods: &[Bag],
    words: &[Bag],
) -> Result<Option<Sequence<Sequence<u32>>>, AllocError>
    ensures { IfOk result (λ found. FindsEach most_tags (words_of periods.now) (words_of words.now) found) }
{
    let mut all = Sequence::new(alloc);
    for word in words {
        match find_numbers(alloc, periods, word)? {
            None => return Ok(None),
            Some(numbers) => all.push(numbers)?,
        }
    }
    Ok(Some(all))
}
