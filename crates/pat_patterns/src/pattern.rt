// Patterns, their copies and their comparison.
//
// The parts of a pattern are shared: a copy is one more owner of them, and takes no walk. They may
// have owners in several threads, since a program is lent to threads.
ghost use Rattle.std.specs.Prelude.{◌≡◌, IfOk, IsTrue, ◌↔◌};
ghost use Rattle.pat_words_spec.specs.Patterns.{is_zero, is_one};
ghost use Rattle.pat_patterns.specs.Views.{pattern_view};

use std::alloc::AllocError;
use std::sync::Arc;

/// A pattern over tags and variables.
#[derive(Debug, Drop)]
pub enum Pattern {
    /// No word.
    Zero,
    /// The empty word.
    One,
    /// The word of one message with the tag.
    Tag(u8),
    /// The words of either side.
    Sum(Arc<Pattern>, Arc<Pattern>),
    /// The sums of a word of each side.
    Prod(Arc<Pattern>, Arc<Pattern>),
    /// The sums of any number of words.
    Star(Arc<Pattern>),
    /// The words of a variable.
    Var(u32),
}

impl Pattern {
    /// A second pattern, the same, of the same parts.
    pub fn copy(&self) -> Result<Pattern, AllocError>
        ensures { IfOk result (λ p. pattern_view p ≡ pattern_view self.now) }
    {
        match self {
            Pattern::Zero => Ok(Pattern::Zero),
            Pattern::One => Ok(Pattern::One),
            Pattern::Tag(tag) => Ok(Pattern::Tag(*tag)),
            Pattern::Var(number) => Ok(Pattern::Var(*number)),
            Pattern::Sum(left, right) => Ok(Pattern::Sum(
                Arc::try_clone(left)?,
                Arc::try_clone(right)?,
            )),
            Pattern::Prod(left, right) => Ok(Pattern::Prod(
                Arc::try_clone(left)?,
                Arc::try_clone(right)?,
            )),
            Pattern::Star(part) => Ok(Pattern::Star(Arc::try_clone(part)?)),
        }
    }

    /// Whether the patterns are the same.
    pub fn is_same(&self, other: &Pattern) -> bool
        ensures { IsTrue result ↔ (pattern_view self.now ≡ pattern_view other.now) }
    {
        match (self, other) {
            (Pattern::Zero, Pattern::Zero) | (Pattern::One, Pattern::One) => true,
            (Pattern::Tag(tag), Pattern::Tag(other_tag)) => tag == other_tag,
            (Pattern::Var(number), Pattern::Var(other_number)) => number == other_number,
            (Pattern::Sum(left, right), Pattern::Sum(other_left, other_right)) => {
                left.is_same(other_left) && right.is_same(other_right)
            }
            (Pattern::Prod(left, right), Pattern::Prod(other_left, other_right)) => {
                left.is_same(other_left) && right.is_same(other_right)
            }
            (Pattern::Star(part), Pattern::Star(other_part)) => part.is_same(other_part),
            _ => false,
        }
    }

    /// Whether the pattern is 0.
    pub fn is_zero(&self) -> bool
        ensures { result ≡ is_zero (pattern_view self.now) }
    {
        matches!(self, Pattern::Zero)
    }

    /// Whether the pattern is 1.
    pub fn is_one(&self) -> bool
        ensures { result ≡ is_one (pattern_view self.now) }
    {
        matches!(self, Pattern::One)
    }
}
