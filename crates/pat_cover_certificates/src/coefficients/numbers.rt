// The search for numbers.
ghost use Rattle.std.specs.Prelude.{◌≡◌, ℕ, ◌<◌, ◌≤◌, length, drop, IfOk, IsTrue, IsFalse};
ghost use Rattle.pat_bags.specs.Views.{word_of};
ghost use Rattle.pat_inclusion_spec.specs.Counts.{most_tags};
ghost use Rattle.pat_linear.specs.Views.{words_of};
ghost use Rattle.pat_cover_certificates.specs.coefficients.Numbers.{FindsNumbers, NoNumbers};
ghost use Rattle.pat_cover_certificates.specs.coefficients.Frames.{CameToNothing};

use crate::coefficients::divisors::are_multiples;
use crate::coefficients::failed::{Note, has_failed, make_room};
use crate::coefficients::frames::{Frame, advance, numbers_of};
use crate::coefficients::single::single_number;
use crate::coefficients::tags::{counts_fit, tags_occur};
use pat_bags::Bag;
use pat_sequences::Sequence;
use std::alloc::{AllocError, Global};

/// How often each period is to be taken, so that all together make the word: the first such numbers in the order of lists, or
/// `None` where there are none.
pub fn find_numbers(
    alloc: Global,
    periods: &[Bag],
    word: &Bag,
) -> Result<Option<Sequence<u32>>, AllocError>
    ensures { IfOk result (λ found. FindsNumbers most_tags (words_of periods.now) (word_of word.now) found) }
{
    match periods {
        [period] => single_number(alloc, period, word),
        _ => {
            if !are_multiples(periods, word) {
                return Ok(None);
            }
            search_all(alloc, periods, word)
        }
    }
}

/// The same by a search over the numbers of all periods.
fn search_all(
    alloc: Global,
    periods: &[Bag],
    word: &Bag,
) -> Result<Option<Sequence<u32>>, AllocError>
    ensures { IfOk result (λ found. FindsNumbers most_tags (words_of periods.now) (word_of word.now) found) }
{
    counts_fit(word);
    let mut frames = Sequence::new(alloc);
    frames.items.reserve_exact(periods.len())?;
    let mut failed = Sequence::new(alloc);
    let mut left = *word;
    let mut turns = 0;
    loop {
        if comes_to_nothing(periods, frames.len(), failed.as_slice(), &left) {
            if frames.is_empty() {
                return Ok(None);
            }
            turns = make_room(&mut failed, turns)?;
            match advance(periods, word, &mut frames, &mut failed)? {
                None => return Ok(None),
                Some(next) => left = next,
            }
        } else if frames.len() == periods.len() {
            let numbers = numbers_of(alloc, frames.as_slice())?;
            return Ok(Some(numbers));
        } else {
            frames.push(Frame {
                number: 0,
                before: left,
                left,
            })?;
        }
    }
}

/// Whether it is known that the periods from the place on don't make what is left: a tag of it is none of theirs, or it came to
/// nothing before.
fn comes_to_nothing(periods: &[Bag], place: usize, failed: &[Option<Note>], left: &Bag) -> bool
    requires place { place ≤ length periods.now }
    requires failed { CameToNothing most_tags (words_of periods.now) failed.now }
    ensures nothing { IsTrue result → NoNumbers most_tags (words_of (drop place periods.now)) (word_of left.now) }
    ensures end { IsFalse result → place ≡ length periods.now → (t : ℕ) → t < most_tags → word_of left.now t ≡ 0 }
{
    if !tags_occur(&periods[place..], left) {
        return true;
    }
    has_failed(failed, place, left)
}
