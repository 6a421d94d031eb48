// Patterns of each live mailbox: a row for each, in their order.
ghost use Rattle.std.specs.Prelude.{◌≡◌, ℕ, List, [], length, map, replicate, IsTrue, IfOk, OnOk};
ghost use Rattle.pat_words_spec.specs.Patterns.{Pat};
ghost use Rattle.pat_patterns.specs.Views.{pattern_view};
ghost use Rattle.pat_checkpoint_spec.specs.Numbers.{ascends};
ghost use Rattle.pat_checkpoint_balances.specs.Gathered.{rows_view, put_at, with_one};

use crate::places::place_of;
use pat_patterns::Pattern;
use pat_sequences::Sequence;
use std::alloc::{AllocError, Global};

/// So many empty rows.
pub fn no_rows(alloc: Global, count: usize) -> Result<Sequence<Sequence<Pattern>>, AllocError>
    ensures { IfOk result (λ rows. rows ≡ replicate count []) }
{
    let mut rows = Sequence::new(alloc);
    for _ in 0..count {
        rows.push(Sequence::new(alloc))?;
    }
    Ok(rows)
}

// Puts a pattern at the end of the row at a place.
fn put(
    rows: &mut Sequence<Sequence<Pattern>>,
    place: usize,
    pattern: Pattern,
) -> Result<(), AllocError>
    ensures { OnOk result (rows.new ≡ put_at rows.old place pattern) }
{
    if place < rows.len() {
        rows.items[place].push(pattern)?;
    }
    Ok(())
}

/// Puts a pattern at the end of the row of a mailbox, if it is live.
pub fn add(
    rows: &mut Sequence<Sequence<Pattern>>,
    live: &[u32],
    mailbox: u32,
    pattern: Pattern,
) -> Result<(), AllocError>
    requires { IsTrue (ascends 0 live.now) }
    ensures { OnOk result ((row : ℕ → List Pat) → rows_view rows.old ≡ map row live.now
        → rows_view rows.new ≡ map (with_one row mailbox (pattern_view pattern)) live.now) }
{
    match place_of(live, mailbox) {
        None => Ok(()),
        Some(place) => put(rows, place, pattern),
    }
}
