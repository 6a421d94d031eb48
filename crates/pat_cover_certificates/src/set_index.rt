// Sets found by their bases.
ghost use Rattle.std.specs.Prelude.{◌≡◌, ◌<◌, ◌^◌, List, ℕ, length, IfOk, OnOk};
ghost use Rattle.pat_cover_certificates.specs.Indexes.{AddsBase, AddsSet, Indexes};

use crate::coefficients::counts_are_all;
use pat_bags::Bag;
use pat_linear::LinearSet;
use pat_sequences::Sequence;
use std::alloc::{AllocError, Global};
use std::collections::HashMap;

/// Of fewer sets each is looked at sooner than a base is hashed.
const FEW_SETS: usize = 16;

/// The places of some sets: of those without periods by their bases, which are all that they hold, and of the others in order. Of the
/// same set the first place.
#[derive(Drop)]
pub struct SetIndex<'a> {
    pub by_base: HashMap<&'a [u32], u32>,
    pub others: Sequence<u32>,
}

/// The index of the sets.
pub fn index_of<'a>(alloc: Global, sets: &'a [LinearSet]) -> Result<SetIndex<'a>, AllocError>
    requires { length sets.now < 2 ^ 32 }
    ensures { IfOk result (λ index. Indexes sets.now (length sets.now) index.by_base.entries index.others) }
{
    let mut index = SetIndex {
        by_base: HashMap::new(alloc),
        others: Sequence::new(alloc),
    };
    let is_hashed = sets.len() >= FEW_SETS;
    let mut place = 0;
    for set in sets {
        add_set(&mut index, set, place, is_hashed)?;
        place += 1;
    }
    Ok(index)
}

/// Adds a set at its place.
fn add_set<'a>(
    index: &mut SetIndex<'a>,
    set: &'a LinearSet,
    place: u32,
    is_hashed: bool,
) -> Result<(), AllocError>
    ensures { OnOk result (AddsSet set.now place index.old.by_base.entries index.old.others index.new.by_base.entries index.new.others) }
{
    if is_hashed && set.periods.is_empty() {
        return add_base(&mut index.by_base, &set.base, place);
    }
    index.others.push(place)
}

/// Adds a base with its place, unless it is there.
fn add_base<'a>(
    by_base: &mut HashMap<&'a [u32], u32>,
    base: &'a Bag,
    place: u32,
) -> Result<(), AllocError>
    ensures { OnOk result (AddsBase base.now place by_base.old.entries by_base.new.entries) }
{
    counts_are_all(base);
    let counts = base.counts.as_slice();
    if by_base.contains_key(counts) {
        return Ok(());
    }
    by_base.insert(counts, place)?;
    Ok(())
}
