// Bags compared, and lists of periods without an empty one and without repeats.
ghost use Rattle.std.specs.Prelude.{◌≡◌, IfOk, OnOk};
ghost use Rattle.pat_bags.specs.Views.{word_of};
ghost use Rattle.pat_inclusion_spec.specs.Counts.{most_tags, same_below, has_word, is_empty_below};
ghost use Rattle.pat_inclusion_spec.specs.ClosedForms.{add_period as period_added, add_periods as periods_added};
ghost use Rattle.pat_linear.specs.Views.{words_of};

use pat_bags::Bag;
use pat_sequences::Sequence;
use std::alloc::{AllocError, Global};

/// Whether the counts of all tags are the same.
pub fn same_counts(a: &Bag, b: &Bag) -> bool
    ensures { result ≡ same_below most_tags (word_of a.now) (word_of b.now) }
{
    for t in 0..32u8 {
        if a.get(t) != b.get(t) {
            return false;
        }
    }
    true
}

fn is_empty(bag: &Bag) -> bool
    ensures { result ≡ is_empty_below most_tags (word_of bag.now) }
{
    same_counts(bag, &Bag::empty())
}

/// Whether one of the bags has the same counts.
pub fn holds(bags: &[Bag], bag: &Bag) -> bool
    ensures { result ≡ has_word most_tags (words_of bags.now) (word_of bag.now) }
{
    for own in bags {
        if same_counts(bag, own) {
            return true;
        }
    }
    false
}

/// Appends the period, unless it is empty or there already.
pub fn add_period(periods: &mut Sequence<Bag>, period: &Bag) -> Result<(), AllocError>
    ensures { OnOk result (words_of periods.new ≡ period_added most_tags (words_of periods.old) (word_of period.now)) }
{
    if is_empty(period) || holds(periods.as_slice(), period) {
        return Ok(());
    }
    periods.push(*period)
}

/// Appends the periods in turn.
pub fn add_periods(periods: &mut Sequence<Bag>, more: &[Bag]) -> Result<(), AllocError>
    ensures { OnOk result (words_of periods.new ≡ periods_added most_tags (words_of periods.old) (words_of more.now)) }
{
    for period in more {
        add_period(periods, period)?;
    }
    Ok(())
}

/// A second list of the same bags.
pub fn copied(alloc: Global, bags: &[Bag]) -> Result<Sequence<Bag>, AllocError>
    ensures { IfOk result (λ copy. copy ≡ bags.now) }
{
    let copy = Vec::from_slice(alloc, bags)?;
    Ok(Sequence::from_vec(copy))
}
