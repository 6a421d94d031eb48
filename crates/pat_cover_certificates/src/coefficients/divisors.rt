// Common divisors of the periods' counts: each count that the periods make is a multiple of them.
ghost use Rattle.std.specs.Prelude.{IsFalse};
ghost use Rattle.std.specs.Int.{◌∣◌, IsGcd};
ghost use Rattle.std.specs.List.{AllByRecursion};
ghost use Rattle.pat_bags.specs.Views.{word_of};
ghost use Rattle.pat_inclusion_spec.specs.Counts.{most_tags};
ghost use Rattle.pat_linear.specs.Views.{words_of};
ghost use Rattle.pat_cover_certificates.specs.coefficients.Numbers.{NoNumbers};

use pat_bags::{Bag, TAGS};

/// The greatest common divisor of both; of a number and 0 that number.
fn greatest_divisor(first: u32, second: u32) -> u32
    ensures { IsGcd first second result }
{
    let mut divisor = first;
    let mut rest = second;
    while rest > 0 {
        let next = divisor % rest;
        divisor = rest;
        rest = next;
    }
    divisor
}

/// A common divisor of the periods' counts of the tag; 0 where all of them are 0.
fn common_divisor(tag: u8, periods: &[Bag]) -> u32
    ensures { AllByRecursion (λ p. result ∣ p tag) (words_of periods.now) }
{
    let mut divisor = 0;
    for period in periods {
        divisor = greatest_divisor(divisor, period.get(tag));
    }
    divisor
}

/// Whether each count of the word is a multiple of the common divisor of the periods' counts of that tag: else they don't make it.
pub fn are_multiples(periods: &[Bag], word: &Bag) -> bool
    ensures { IsFalse result → NoNumbers most_tags (words_of periods.now) (word_of word.now) }
{
    for t in 0..TAGS as u8 {
        let count = word.get(t);
        if count > 0 && !count.is_multiple_of(common_divisor(t, periods)) {
            return false;
        }
    }
    true
}
