// Patterns that are the same, and how many sets their closed form has at most, by their parts alone: none of them is made.
ghost use Rattle.std.specs.Prelude.{◌≡◌, ℕ, ◌≤◌, ◌*◌, ◌-◌, ◌^◌, ◌&&◌, min, IsTrue};
ghost use Rattle.pat_words_spec.specs.Patterns.{Pat, Tag};
ghost use Rattle.pat_patterns.specs.Views.{pattern_view};
ghost use Rattle.pat_limits.specs.Limits.{most_sets};
ghost use Rattle.pat_solve_closed_forms.specs.declared.same.Comparison.TheVariants.{SameWithForm};
ghost use Rattle.pat_solve_closed_forms.specs.Bounds.{IsBound, Adds, SameAdds};
ghost use Rattle.pat_solve_closed_forms.specs.Comparisons.{ComparesParts};

use pat_limits::MOST_SETS;
use pat_patterns::Pattern;

/// What is known of the sets of patterns.
#[derive(Clone, Copy)]
pub struct SetBound {
    /// They are so many at most.
    pub sets: usize,
    /// None of them has periods.
    pub are_words: bool,
}

const NONE: SetBound = SetBound {
    sets: 0,
    are_words: true,
};

const WORD: SetBound = SetBound {
    sets: 1,
    are_words: true,
};

// The star of sets without periods.
const STAR: SetBound = SetBound {
    sets: 1,
    are_words: false,
};

impl SetBound {
    /// Adds the sets of one more pattern, unless they are too many together.
    fn add(&mut self, own: SetBound) -> bool
        ensures { (e : Pat) → (own.sets ≤ most_sets → IsBound own e) → IsTrue result → Adds self.old self.new e }
    {
        self.sets = self.sets.saturating_add(own.sets);
        self.are_words = self.are_words && own.are_words;
        self.sets <= MOST_SETS
    }

    fn product(self, other: SetBound) -> SetBound
        ensures sets { result.sets ≡ min (self.sets * other.sets) (2 ^ 64 - 1) }
        ensures words { result.are_words ≡ (self.are_words && other.are_words) }
    {
        SetBound {
            sets: self.sets.saturating_mul(other.sets),
            are_words: self.are_words && other.are_words,
        }
    }
}

/// Whether the patterns are the same and have few sets, which are added to what is known of others.
fn add_same(left: &Pattern, right: &Pattern, bound: &mut SetBound) -> bool
    ensures { IsTrue result → SameAdds bound.old bound.new (pattern_view left.now) (pattern_view right.now) }
{
    match (left, right) {
        (Pattern::Zero, Pattern::Zero) => bound.add(NONE),
        (Pattern::One, Pattern::One) => bound.add(WORD),
        (Pattern::Tag(tag), Pattern::Tag(other)) => tag == other && bound.add(WORD),
        (Pattern::Sum(left, right), Pattern::Sum(other_left, other_right)) => {
            add_same(left, other_left, bound) && add_same(right, other_right, bound)
        }
        (Pattern::Prod(left, right), Pattern::Prod(other_left, other_right)) => {
            // Left parts are mostly tags, which leave the sets as many as they are.
            if are_same_tag(left, other_left) {
                return add_same(right, other_right, bound);
            }
            let mut first = NONE;
            if !add_same(left, other_left, &mut first) {
                return false;
            }
            let mut second = NONE;
            add_same(right, other_right, &mut second) && bound.add(first.product(second))
        }
        (Pattern::Star(part), Pattern::Star(other)) => {
            let mut words = NONE;
            if !add_same(part, other, &mut words) {
                return false;
            }
            words.are_words && bound.add(STAR)
        }
        _ => false,
    }
}

/// Whether the patterns are the same tag.
fn are_same_tag(left: &Pattern, right: &Pattern) -> bool
    ensures { IsTrue result → (tag : ℕ) × (pattern_view left.now ≡ Tag tag) × (pattern_view right.now ≡ Tag tag) }
{
    match (left, right) {
        (Pattern::Tag(tag), Pattern::Tag(other)) => tag == other,
        _ => false,
    }
}

#[tactic(auto, using(crate::proofs::Bounding::same_few))]
/// Whether the patterns are the same, with few sets by what is seen of their parts: then each list that is made on the way to their
/// closed form is short.
pub fn are_same_with_few_sets(left: &Pattern, right: &Pattern) -> bool
    ensures { IsTrue result → ComparesParts (pattern_view left.now) (pattern_view right.now) SameWithForm }
{
    let mut bound = NONE;
    add_same(left, right, &mut bound)
}
