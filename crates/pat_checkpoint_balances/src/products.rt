// Products of many patterns.
ghost use Rattle.std.specs.Prelude.{◌≡◌, IfOk};
ghost use Rattle.pat_words_spec.specs.Patterns.{prod_of};
ghost use Rattle.pat_patterns.specs.Views.{pattern_view, patterns_view};
ghost use Rattle.pat_checkpoint_spec.specs.Balances.{paired as paired_by, product_of as product_of_all};

use pat_patterns::{Pattern, product};
use pat_sequences::Sequence;
use std::alloc::{AllocError, Global};

/// The product of the patterns: neighbours are joined until one is left, so that it has few levels.
pub fn product_of(alloc: Global, factors: &[Pattern]) -> Result<Pattern, AllocError>
    ensures { IfOk result (λ e. pattern_view e ≡ product_of_all (patterns_view factors.now)) }
{
    let mut joined = paired(alloc, factors)?;
    while joined.len() > 1 {
        joined = paired(alloc, joined.as_slice())?;
    }
    match joined.pop() {
        None => Ok(Pattern::One),
        Some(whole) => Ok(whole),
    }
}

// The patterns with neighbours joined.
fn paired(alloc: Global, factors: &[Pattern]) -> Result<Sequence<Pattern>, AllocError>
    ensures { IfOk result (λ joined. patterns_view joined ≡ paired_by (patterns_view factors.now)) }
{
    let mut joined = Sequence::new(alloc);
    let mut place = 0;
    while factors.len() - place > 1 {
        joined.push(pair(alloc, &factors[place], &factors[place + 1])?)?;
        place += 2;
    }
    if place < factors.len() {
        joined.push(factors[place].copy()?)?;
    }
    Ok(joined)
}

fn pair(alloc: Global, first: &Pattern, second: &Pattern) -> Result<Pattern, AllocError>
    ensures { IfOk result (λ e. pattern_view e ≡ prod_of (pattern_view first.now) (pattern_view second.now)) }
{
    let first = first.copy()?;
    let second = second.copy()?;
    product(alloc, first, second)
}
