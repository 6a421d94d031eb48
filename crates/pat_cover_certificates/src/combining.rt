// Whether periods, each taken so often, make a word.
ghost use Rattle.std.specs.Prelude.{◌≡◌, ◌↔◌, IsTrue};
ghost use Rattle.pat_words_spec.specs.Words.{plus};
ghost use Rattle.pat_bags.specs.Views.{word_of};
ghost use Rattle.pat_inclusion_spec.specs.Counts.{most_tags, same_below};
ghost use Rattle.pat_inclusion_spec.specs.LinearSets.{combined};
ghost use Rattle.pat_inclusion_spec.specs.Covers.{makes as makes_of, makes_from as makes_from_of};
ghost use Rattle.pat_linear.specs.Views.{words_of};
ghost use Rattle.pat_cover_certificates.specs.Counting.{Leaves};

use pat_bags::Bag;

/// What is left of a count of the tag once each period is taken as often as its number says; `None` where it falls short. No sum
/// is formed, so that none can wrap.
fn left_over(count: u32, tag: u8, numbers: &[u32], periods: &[Bag]) -> Option<u32>
    ensures { Leaves result count (combined numbers.now (words_of periods.now) tag) }
{
    let mut left = count;
    let mut numbers = numbers;
    let mut periods = periods;
    loop {
        match numbers {
            [] => return Some(left),
            [number, more @ ..] => match periods {
                [] => return Some(left),
                [period, others @ ..] => {
                    let product = *number as u64 * period.get(tag) as u64;
                    if product > left as u64 {
                        return None;
                    }
                    left -= product as u32;
                    numbers = more;
                    periods = others;
                }
            },
        }
    }
}

/// Whether the periods, taken so often, have the word's count of the tag.
fn fits_at(periods: &[Bag], numbers: &[u32], word: &Bag, tag: u8) -> bool
    ensures { IsTrue result ↔ (word_of word.now tag ≡ combined numbers.now (words_of periods.now) tag) }
{
    match left_over(word.get(tag), tag, numbers, periods) {
        Some(left) => left == 0,
        None => false,
    }
}

/// Whether the base and the periods, taken so often, have the word's count of the tag.
fn fits_from(base: &Bag, periods: &[Bag], numbers: &[u32], word: &Bag, tag: u8) -> bool
    ensures { IsTrue result ↔ (word_of word.now tag ≡ plus (word_of base.now) (combined numbers.now (words_of periods.now)) tag) }
{
    let count = word.get(tag);
    let own = base.get(tag);
    if own > count {
        return false;
    }
    match left_over(count - own, tag, numbers, periods) {
        Some(left) => left == 0,
        None => false,
    }
}

/// Whether the periods, taken so often, make the word.
#[tactic(auto, using(pat_linear::proofs::SameWords::same_step))]
fn all_fit(periods: &[Bag], numbers: &[u32], word: &Bag) -> bool
    ensures { result ≡ same_below most_tags (word_of word.now) (combined numbers.now (words_of periods.now)) }
{
    for t in 0..32u8 {
        if !fits_at(periods, numbers, word, t) {
            return false;
        }
    }
    true
}

/// Whether the base and the periods, taken so often, make the word.
#[tactic(auto, using(pat_linear::proofs::SameWords::same_step))]
fn all_fit_from(base: &Bag, periods: &[Bag], numbers: &[u32], word: &Bag) -> bool
    ensures { result ≡ same_below most_tags (word_of word.now) (plus (word_of base.now) (combined numbers.now (words_of periods.now))) }
{
    for t in 0..32u8 {
        if !fits_from(base, periods, numbers, word, t) {
            return false;
        }
    }
    true
}

/// Whether there is a number for each period, and so often taken they make the word.
pub fn makes(periods: &[Bag], numbers: &[u32], word: &Bag) -> bool
    ensures { result ≡ makes_of most_tags (words_of periods.now) numbers.now (word_of word.now) }
{
    numbers.len() == periods.len() && all_fit(periods, numbers, word)
}

/// Whether there is a number for each period, and so often taken they make the word from the base.
pub fn makes_from(base: &Bag, periods: &[Bag], numbers: &[u32], word: &Bag) -> bool
    ensures { result ≡ makes_from_of most_tags (word_of base.now) (words_of periods.now) numbers.now (word_of word.now) }
{
    numbers.len() == periods.len() && all_fit_from(base, periods, numbers, word)
}
