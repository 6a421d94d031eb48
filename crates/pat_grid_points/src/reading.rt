// What a grid has.
ghost use Rattle.std.specs.Prelude.{◌≡◌, ◌↔◌, ◌<◌, ◌≤◌, ◌+◌, ◌++◌, ℕ, true, false, length, get_or, IsTrue, IfSome, IfNone, IfOk, OnOk, map};
ghost use Rattle.pat_words_spec.specs.Words.{Word};
ghost use Rattle.pat_words_spec.specs.Cuts.{cut_at};
ghost use Rattle.pat_bags.specs.Views.{word_of};
ghost use Rattle.pat_inclusion_spec.specs.Points.{points_fit};
ghost use Rattle.pat_inclusion_spec.specs.bounds.Numbers.{point_of};
ghost use Rattle.pat_grid_points.specs.Views.{HasPoint, points_of, points_between, IsLike};

use crate::grid::Grid;
use crate::numbers::{bag_of, number_of};
use crate::sparse::SparseList;
use pat_bags::Bag;
use pat_inclusion_laws::number_laws;
use pat_sequences::Sequence;
use std::alloc::{AllocError, Global};

impl Grid {
    /// Whether the word, cut at `k`, is a point of the grid.
    pub fn holds(&self, word: &Bag) -> bool
        ensures { IsTrue result ↔ HasPoint self.now (cut_at self.now.k (word_of word.now)) }
    {
        let mut cut = *word;
        cut.cut(self.k);
        let number = number_of(word, self.k, self.tags);
        self.held.get(number) && bag_of(number, self.k, self.tags).is_same(&cut)
    }

    /// A point of this grid that isn't one of the other, if there is one. The grids are of the same number of tags and the
    /// same `k`.
    pub fn missing(&self, other: &Grid) -> Option<Bag>
        requires { IsLike self.now other.now }
        ensures some { IfSome result (λ b. HasPoint self.now (word_of b) × (HasPoint other.now (word_of b) → ⊥)) }
        ensures none { IfNone result ((u : Word) → HasPoint self.now u → HasPoint other.now u) }
    {
        let mut number = next_held(&self.held, 0);
        while number < self.held.len() {
            if !other.held.get(number) {
                return Some(bag_of(number, self.k, self.tags));
            }
            number = next_held(&self.held, other.held.same_until(number));
        }
        None
    }

    /// Its points in ascending order, the count of the first tag being the highest digit.
    pub fn points(&self, alloc: Global) -> Result<Sequence<Bag>, AllocError>
        ensures all { IfOk result (λ bags. map word_of bags ≡ points_of self.now) }
        ensures ascend { IfOk result (λ bags. IsTrue (points_fit self.now.k self.now.tags (map (λ b. b.counts) bags))) }
    {
        number_laws();
        let mut bags = Sequence::new(alloc);
        let mut number = next_held(&self.held, 0);
        while number < self.held.len() {
            let end = self.held.same_until(number);
            self.list_run(number, end, &mut bags)?;
            number = next_held(&self.held, end);
        }
        Ok(bags)
    }

    /// Appends the points with the numbers `from..to`.
    fn list_run(&self, from: usize, to: usize, bags: &mut Sequence<Bag>) -> Result<(), AllocError>
        ensures { OnOk result (map word_of bags.new ≡ map word_of bags.old ++ points_between self.now.k self.now.tags from to) }
    {
        let mut bag = bag_of(from, self.k, self.tags);
        for number in from..to {
            bags.push(bag)?;
            bag = self.point_behind(&bag, number + 1);
        }
        Ok(())
    }

    /// The point with the number, from the one before it: mostly only the last digit differs.
    fn point_behind(&self, before: &Bag, number: usize) -> Bag
        requires { (c : ℕ) → number ≡ c + 1 → word_of before.now ≡ point_of self.now.k self.now.tags c }
        ensures { word_of result ≡ point_of self.now.k self.now.tags number }
    {
        if self.tags == 0 || number % (self.k as usize + 1) == 0 {
            return bag_of(number, self.k, self.tags);
        }
        let mut counts = before.counts;
        counts[self.tags as usize - 1] += 1;
        Bag { counts }
    }
}

/// The first number from this one on that is held; where there is none, the number of all.
pub fn next_held(held: &SparseList<bool>, from: usize) -> usize
    requires { from ≤ length held.now }
    ensures from { from ≤ result }
    ensures within { result ≤ length held.now }
    ensures before { (c : ℕ) → from ≤ c → c < result → get_or held.now c false ≡ false }
    ensures there { result < length held.now → get_or held.now result false ≡ true }
{
    let mut number = from;
    while number < held.len() {
        if held.get(number) {
            return number;
        }
        number = held.same_until(number);
    }
    number
}
