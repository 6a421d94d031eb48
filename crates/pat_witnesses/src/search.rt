// What a search for a word that refutes an inclusion may answer.
use crate::bound::Bound;
use pat_bags::Bag;

/// A word that refutes an inclusion, and the tree that shows it for the left side.
#[derive(Debug)]
pub struct Refutation {
    pub word: Bag,
    pub tree: Bound,
}

impl Drop for Refutation {
    fn drop(self) {
        let Refutation { word: _, tree: _ } = self;
    }
}

/// What a search for a refutation finds.
#[derive(Debug, Drop)]
pub enum Search {
    /// No word refutes: each derivable word of the left is one of the right.
    Inside,
    /// A refutation, whose tree is within the limit.
    Found(Refutation),
    /// There are words that refute, but every tree of theirs outgrows the limit.
    Large,
}
