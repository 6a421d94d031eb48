// Histories in order: each entry moves forward past greater threads' entries that are independent of it.
ghost use Rattle.std.specs.Prelude.{◌≡◌, ◌≤◌, ◌<◌, ◌^◌, ◌&&◌, Some, [], ◌∷◌, ◌++◌, length, map, IfOk};
ghost use Rattle.std.specs.List.{insert};
ghost use Rattle.pat_semantics_spec.specs.Programs.{Program};
ghost use Rattle.pat_semantics_spec.specs.Configs.{Config};
ghost use Rattle.pat_semantics_spec.specs.Runs.{replay};
ghost use Rattle.pat_reduce.specs.Views.{entry_view};
ghost use Rattle.pat_causal_spec.specs.Independent as of;
ghost use Rattle.pat_causal_laws.specs.Moving.{SettledFrom};
ghost use Rattle.pat_causal.specs.Counts.{AreCounts};
ghost use Rattle.pat_causal.specs.Order.{HasOrder, LeadOn};
ghost use Rattle.pat_limits.specs.Limits.{most_entries};

use crate::acts::{is_free, makes_message, makes_thread, take_turns};
use crate::counts::Counts;
use pat_reduce::Entry;
use std::alloc::{AllocError, Global};

/// The history in order: no two neighbours of it are independent with the greater thread first. It replays to the same.
pub fn order(alloc: Global, entries: &[Entry]) -> Result<Vec<Entry>, AllocError>
    requires { length entries.now ≤ most_entries }
    ensures ordered { IfOk result (λ r. HasOrder (map entry_view entries.now) (map entry_view r.items)) }
    ensures replays { (p : Program) (c : Config) → replay p (map entry_view entries.now) ≡ Some c
        → IfOk result (λ r. replay p (map entry_view r.items) ≡ Some c) }
{
    let mut ordered = Vec::new(alloc);
    let mut counts = Counts::none();
    for i in 0..entries.len() {
        let entry = &entries[i];
        let place = place_of(&ordered, entry, counts);
        ordered.insert(place, *entry)?;
        counts = counts.with(entry);
    }
    Ok(ordered)
}

// The place in order of an entry that comes behind these: as far forward as it may move. It is known what they make.
fn place_of(ordered: &[Entry], entry: &Entry, before: Counts) -> usize
    requires settled { SettledFrom 0 0 (map entry_view ordered.now) }
    requires known { AreCounts before (map entry_view ordered.now) }
    requires few { length ordered.now < most_entries }
    ensures within { result ≤ length ordered.now }
    ensures settled { SettledFrom 0 0 (insert (map entry_view ordered.now) result (entry_view entry.now)) }
    ensures led { LeadOn (map entry_view ordered.now ++ entry_view entry.now ∷ []) (insert (map entry_view ordered.now) result (entry_view entry.now)) }
{
    let mut place = ordered.len();
    let mut counts = before;
    while place > 0 {
        let other = &ordered[place - 1];
        counts = counts.without(other);
        if !goes_past(counts, other, entry) {
            return place;
        }
        place -= 1;
    }
    0
}

// Whether the entry moves past the other one, where it is known what those before that one make.
fn goes_past(before: Counts, other: &Entry, entry: &Entry) -> bool
    requires { before.spawned < 2 ^ 32 }
    ensures { result ≡ (of.is_greater (Some (entry_view other.now)) (Some (entry_view entry.now))
        && of.are_independent before.spawned before.sent (entry_view other.now) (entry_view entry.now)) }
{
    entry.thread < other.thread && are_independent(before, other, entry)
}

// Whether the first entry and the second behind it are independent, where it is known what those before them make.
#[inline(always)]
fn are_independent(before: Counts, first: &Entry, second: &Entry) -> bool
    requires { before.spawned < 2 ^ 32 }
    ensures { result ≡ of.are_independent before.spawned before.sent (entry_view first.now) (entry_view second.now) }
{
    first.thread != second.thread
        && (!is_free(first.shared)
            && (!is_free(second.shared)
                && (!take_turns(first.shared, second.shared)
                    && (!makes_thread(1 + before.spawned, first.shared, second.thread)
                        && !makes_message(before.sent, first.shared, second.shared)))))
}
