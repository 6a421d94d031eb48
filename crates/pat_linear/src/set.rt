// Linear sets.
use pat_bags::Bag;
use pat_sequences::Sequence;

/// A linear set: a base, and periods that may each be added any number of times.
#[derive(Drop)]
pub struct LinearSet {
    pub base: Bag,
    pub periods: Sequence<Bag>,
}
