// A search for numbers, as far as it has come.
ghost use Rattle.std.specs.Prelude.{◌≡◌, ℕ, ◌+◌, ◌*◌, ◌<◌, ◌^◌, List, length, drop, slice_get, Some, IfOk};
ghost use Rattle.pat_words_spec.specs.Words.{Word, plus};
ghost use Rattle.pat_bags.specs.Views.{word_of};
ghost use Rattle.pat_inclusion_spec.specs.Counts.{most_tags, scaled};
ghost use Rattle.pat_linear.specs.Views.{words_of};
ghost use Rattle.pat_cover_certificates.specs.coefficients.Numbers.{NoNumbers};
ghost use Rattle.pat_cover_certificates.specs.coefficients.Frames.{numbers_of as numbers_of_frames, left_of, to_come, Stands, TakesOne, GoesOn, CameToNothing, Advances};

use crate::coefficients::failed::{Note, has_failed, note_failed};
use crate::coefficients::tags::{counts_fit, tags_are_few};
use pat_bags::Bag;
use pat_sequences::Sequence;
use std::alloc::{AllocError, Global};

/// How often a period is taken, what was left before, and what is left then.
#[derive(Clone, Copy)]
pub struct Frame {
    pub number: u32,
    pub before: Bag,
    pub left: Bag,
}

/// One more of the period, if it isn't empty and so much is left.
pub fn with_one_more(frame: &Frame, period: &Bag) -> Option<Frame>
    requires { (t : ℕ) → word_of frame.now.left t + frame.now.number * word_of period.now t < 2 ^ 32 }
    ensures { TakesOne frame.now (word_of period.now) result }
{
    tags_are_few(period);
    if period.is_empty() {
        return None;
    }
    match frame.left.sub(period) {
        None => None,
        Some(left) => Some(Frame {
            number: frame.number + 1,
            before: frame.before,
            left,
        }),
    }
}

/// The same, unless it is noted that then nothing is made.
fn goes_on(frame: &Frame, period: &Bag, place: usize, failed: &[Option<Note>]) -> Option<Frame>
    requires { (t : ℕ) → word_of frame.now.left t + frame.now.number * word_of period.now t < 2 ^ 32 }
    ensures { (ps : List Word) → CameToNothing most_tags ps failed.now → GoesOn most_tags ps place frame.now (word_of period.now) result }
{
    match with_one_more(frame, period) {
        None => None,
        Some(next) => {
            if has_failed(failed, place, &next.left) {
                return None;
            }
            Some(next)
        }
    }
}

/// Goes on to the next numbers, where those so far come to nothing: the last one that can rise is one more, and those behind it go.
/// What was left before each period that goes, and at each of its numbers, has come to nothing, and is noted.
pub fn advance(
    periods: &[Bag],
    word: &Bag,
    frames: &mut Sequence<Frame>,
    failed: &mut Sequence<Option<Note>>,
) -> Result<Option<Bag>, AllocError>
    requires stands { Stands most_tags (words_of periods.now) (word_of word.now) frames.old }
    requires none { NoNumbers most_tags (to_come (words_of periods.now) frames.old) (left_of (word_of word.now) frames.old) }
    requires failed { CameToNothing most_tags (words_of periods.now) failed.old }
    requires room { 0 < length failed.old }
    requires fit { (t : ℕ) → word_of word.now t < 2 ^ 32 }
    ensures next { IfOk result (λ r. Advances most_tags (words_of periods.now) (word_of word.now) frames.old frames.new r) }
    ensures failed { CameToNothing most_tags (words_of periods.now) failed.new }
{
    while let Some(frame) = frames.pop() {
        let place = frames.len();
        let period = &periods[place];
        match goes_on(&frame, period, place, failed.as_slice()) {
            None => {
                note_each(failed, place, &frame, period);
            }
            Some(next) => {
                frames.push(next)?;
                return Ok(Some(next.left));
            }
        }
    }
    Ok(None)
}

/// Notes that the periods from the place on don't make what was left there before, nor what was left at each of the period's numbers.
fn note_each(failed: &mut Sequence<Option<Note>>, place: usize, frame: &Frame, period: &Bag)
    requires room { 0 < length failed.old }
    requires whole { plus (word_of frame.now.left) (scaled frame.now.number (word_of period.now)) ≡ word_of frame.now.before }
    ensures came { (n : ℕ) (ps : List Word) → slice_get ps place ≡ Some (word_of period.now) → CameToNothing n ps failed.old
        → NoNumbers n (drop place ps) (word_of frame.now.before) → CameToNothing n ps failed.new }
    ensures room { length failed.new ≡ length failed.old }
{
    counts_fit(&frame.before);
    let mut left = frame.left;
    let mut number = frame.number;
    while number > 0 {
        note_failed(failed, place, &left);
        left = left.add(period);
        number -= 1;
    }
    note_failed(failed, place, &left);
}

/// The numbers of the frames.
pub fn numbers_of(alloc: Global, frames: &[Frame]) -> Result<Sequence<u32>, AllocError>
    ensures { IfOk result (λ numbers. numbers ≡ numbers_of_frames frames.now) }
{
    let mut numbers = Sequence::new(alloc);
    numbers.items.reserve_exact(frames.len())?;
    for frame in frames {
        numbers.push(frame.number)?;
    }
    Ok(numbers)
}
