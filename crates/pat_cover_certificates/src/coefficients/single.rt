// How often a single period makes a word.
ghost use Rattle.std.specs.Prelude.{[], ◌∷◌, option_map, IfOk};
ghost use Rattle.pat_bags.specs.Views.{word_of};
ghost use Rattle.pat_inclusion_spec.specs.Counts.{most_tags};
ghost use Rattle.pat_cover_certificates.specs.coefficients.Numbers.{FindsNumbers, IsLeastTimes};

use crate::combining::makes;
use pat_bags::Bag;
use pat_sequences::Sequence;
use std::alloc::{AllocError, Global};

/// How often the period is to be taken, if it makes the word at all: a tag that it has tells.
fn quotient(period: &Bag, word: &Bag) -> u32
    ensures { IsLeastTimes (word_of period.now) (word_of word.now) result }
{
    for t in 0..32u8 {
        let own = period.get(t);
        if own > 0 {
            return word.get(t) / own;
        }
    }
    0
}

/// How often the one period is to be taken to make the word, if it can make it.
fn times(period: &Bag, word: &Bag) -> Option<u32>
    ensures { FindsNumbers most_tags (word_of period.now ∷ []) (word_of word.now) (option_map (λ number. number ∷ []) result) }
{
    let number = quotient(period, word);
    if makes(&[*period], &[number], word) {
        Some(number)
    } else {
        None
    }
}

/// The list of that number alone.
pub fn single_number(
    alloc: Global,
    period: &Bag,
    word: &Bag,
) -> Result<Option<Sequence<u32>>, AllocError>
    ensures { IfOk result (λ found. FindsNumbers most_tags (word_of period.now ∷ []) (word_of word.now) found) }
{
    match times(period, word) {
        None => Ok(None),
        Some(number) => Ok(Some(Sequence::from_vec(vec![in alloc; number]?))),
    }
}
