// Which tags bags have, and how many messages.
ghost use Rattle.std.specs.Prelude.{◌≡◌, ℕ, ◌<◌, ◌^◌, length};
ghost use Rattle.pat_words_spec.specs.Tags.{HasTagsBelow};
ghost use Rattle.pat_bags.specs.Views.{word_of};
ghost use Rattle.pat_inclusion_spec.specs.Counts.{most_tags};
ghost use Rattle.pat_linear.specs.Views.{words_of};
ghost use Rattle.pat_cover_certificates.specs.coefficients.Numbers.{occurs as occurs_of, tags_occur as tags_occur_of};

use pat_bags::Bag;

/// A bag has no tag from 32 on. It does nothing.
#[inline(always)]
pub fn tags_are_few(bag: &Bag)
    ensures { HasTagsBelow most_tags (word_of bag.now) }
{
    counts_are_few(bag);
}

#[inline(always)]
fn counts_are_few(bag: &Bag)
    ensures { HasTagsBelow 32 (word_of bag.now) }
{
    let _counts = bag.counts;
}

/// A bag has a count for each tag. It does nothing.
#[inline(always)]
pub fn counts_are_all(bag: &Bag)
    ensures { length bag.now.counts ≡ 32 }
{
    let _counts = bag.counts;
}

/// Each count of a bag fits into 32 bits. It does nothing.
#[inline(always)]
pub fn counts_fit(bag: &Bag)
    ensures { (t : ℕ) → word_of bag.now t < 2 ^ 32 }
{
    let counts = bag.counts;
    for t in 0..32 {
        let _count = counts[t];
    }
}

/// Whether one of the periods has the tag.
fn occurs(tag: u8, periods: &[Bag]) -> bool
    ensures { result ≡ occurs_of tag (words_of periods.now) }
{
    for period in periods {
        if period.get(tag) > 0 {
            return true;
        }
    }
    false
}

/// Whether each tag of the word is one of some period's.
pub fn tags_occur(periods: &[Bag], word: &Bag) -> bool
    ensures { result ≡ tags_occur_of most_tags (words_of periods.now) (word_of word.now) }
{
    for t in 0..32u8 {
        if word.get(t) > 0 && !occurs(t, periods) {
            return false;
        }
    }
    true
}
