//! Bags: a count for each of 32 tags.
#![tactic(auto)]

ghost use Rattle.std.specs.Prelude.{◌≡◌, ◌<◌, ◌+◌, ◌^◌, ℕ, IsTrue, ◌↔◌, IfSome, IsSome};
ghost use Rattle.pat_words_spec.specs.Words.{plus, one, no_word, LiesIn};
ghost use Rattle.pat_words_spec.specs.Cuts.{cut_at};
ghost use Rattle.pat_bags.specs.Views.{word_of};

/// The number of tags that a bag counts.
pub const TAGS: usize = 32;

/// A count for each tag.
#[derive(Clone, Copy, Debug, PartialEq, Eq)]
pub struct Bag {
    pub counts: [u32; TAGS],
}

impl Bag {
    /// The bag of no message.
    pub fn empty() -> Bag
        ensures { word_of result ≡ no_word }
    {
        Bag { counts: [0; TAGS] }
    }

    /// The bag of one message with this tag.
    pub fn one(tag: u8) -> Bag
        requires { tag < 32 }
        ensures { word_of result ≡ one tag }
    {
        let mut counts = [0; TAGS];
        counts[tag as usize] = 1;
        Bag { counts }
    }

    /// How often the tag occurs: not at all from 32 on.
    pub fn get(&self, tag: u8) -> u32
        ensures value { result ≡ word_of self.now tag }
        ensures within { 0 < result → tag < 32 }
    {
        let place = tag as usize;
        if place < TAGS { self.counts[place] } else { 0 }
    }

    /// Both bags together.
    pub fn add(&self, other: &Bag) -> Bag
        requires { (t : ℕ) → t < 32 → word_of self.now t + word_of other.now t < 2 ^ 32 }
        ensures { word_of result ≡ plus (word_of self.now) (word_of other.now) }
    {
        let mut both = self.counts;
        for t in 0..TAGS {
            both[t] += other.counts[t];
        }
        Bag { counts: both }
    }

    /// Both bags together, or `None` where a count of theirs is greater than the limit's.
    pub fn add_within(&self, other: &Bag, limit: &Bag) -> Option<Bag>
        ensures some { IsSome result ↔ LiesIn (plus (word_of self.now) (word_of other.now)) (word_of limit.now) }
        ensures sum { IfSome result (λ both. word_of both ≡ plus (word_of self.now) (word_of other.now)) }
    {
        let mut counts = self.counts;
        for t in 0..TAGS {
            let most = limit.counts[t];
            if counts[t] > most || other.counts[t] > most - counts[t] {
                return None;
            }
            counts[t] += other.counts[t];
        }
        Some(Bag { counts })
    }

    /// What is left once the other bag is taken out, or `None` where a count is short.
    pub fn sub(&self, other: &Bag) -> Option<Bag>
        ensures some { IsSome result ↔ LiesIn (word_of other.now) (word_of self.now) }
        ensures rest { IfSome result (λ rest. plus (word_of rest) (word_of other.now) ≡ word_of self.now) }
    {
        let mut counts = self.counts;
        for t in 0..TAGS {
            if counts[t] < other.counts[t] {
                return None;
            }
            counts[t] -= other.counts[t];
        }
        Some(Bag { counts })
    }

    /// Whether no count of the other bag is greater.
    pub fn contains(&self, other: &Bag) -> bool
        ensures { IsTrue result ↔ LiesIn (word_of other.now) (word_of self.now) }
    {
        for t in 0..TAGS {
            if self.counts[t] < other.counts[t] {
                return false;
            }
        }
        true
    }

    /// Whether the counts are the same.
    pub fn is_same(&self, other: &Bag) -> bool
        ensures { IsTrue result ↔ (word_of self.now ≡ word_of other.now) }
    {
        self.contains(other) && other.contains(self)
    }

    /// Whether each count is 0.
    pub fn is_empty(&self) -> bool
        ensures { IsTrue result ↔ (word_of self.now ≡ no_word) }
    {
        for t in 0..TAGS {
            if self.counts[t] > 0 {
                return false;
            }
        }
        true
    }

    /// Lowers each count above `k` to `k`.
    pub fn cut(&mut self, k: u32)
        ensures { word_of self.new ≡ cut_at k (word_of self.old) }
    {
        for t in 0..TAGS {
            self.counts[t] = self.counts[t].min(k);
        }
    }
}
