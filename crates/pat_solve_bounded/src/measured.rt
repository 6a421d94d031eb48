// Patterns within the limits, with their sizes.
ghost use Rattle.std.specs.Prelude.{ℕ, ◌≡◌, IfOk, IfSome, IfNone, false};
ghost use Rattle.pat_words_spec.specs.Patterns.{Zero, One, Tag, Var};
ghost use Rattle.pat_patterns.specs.Views.{pattern_view};
ghost use Rattle.pat_inclusion_spec.specs.ClosedForms.{is_small};
ghost use Rattle.pat_solve_bounded.specs.Limits.{IsMeasured};
ghost use Rattle.pat_solve_bounded.specs.Variables.{has_var};

use pat_limits::{MOST_LEVELS, MOST_NODES};
use pat_patterns::{Pattern, levels, size};
use std::alloc::AllocError;

/// A pattern of at most 65,536 nodes and 16,384 levels, with the numbers of both, and a bound below its variables.
#[derive(Drop)]
pub struct Measured {
    pub pattern: Pattern,
    pub nodes: u32,
    pub levels: u32,
    /// Variables with smaller numbers don't occur.
    pub least: u32,
    ghost sizes: { IsMeasured nodes levels least (pattern_view pattern) },
}

/// The pattern with its sizes; `None` where it is too large.
pub fn measure(pattern: Pattern) -> Option<Measured>
    ensures some { IfSome result (λ m. pattern_view m.pattern ≡ pattern_view pattern) }
    ensures none { IfNone result (is_small (pattern_view pattern) ≡ false) }
{
    let nodes = size(&pattern);
    let levels = levels(&pattern);
    if nodes > MOST_NODES || levels > MOST_LEVELS {
        return None;
    }
    Some(Measured {
        pattern,
        nodes,
        levels,
        least: 0,
    })
}

impl Measured {
    /// The pattern 0.
    pub fn zero() -> Measured
        ensures { pattern_view result.pattern ≡ Zero }
    {
        Measured {
            pattern: Pattern::Zero,
            nodes: 1,
            levels: 1,
            least: u32::MAX,
        }
    }

    /// The pattern 1.
    pub fn one() -> Measured
        ensures { pattern_view result.pattern ≡ One }
    {
        Measured {
            pattern: Pattern::One,
            nodes: 1,
            levels: 1,
            least: u32::MAX,
        }
    }

    /// The pattern of a tag.
    pub fn tag(tag: u8) -> Measured
        ensures { pattern_view result.pattern ≡ Tag tag }
    {
        Measured {
            pattern: Pattern::Tag(tag),
            nodes: 1,
            levels: 1,
            least: u32::MAX,
        }
    }

    /// The pattern of a variable.
    pub fn variable(number: u32) -> Measured
        ensures { pattern_view result.pattern ≡ Var number }
    {
        Measured {
            pattern: Pattern::Var(number),
            nodes: 1,
            levels: 1,
            least: number,
        }
    }

    /// The same pattern, in which no variable occurs.
    pub fn without_variables(self) -> Measured
        requires { (k : ℕ) → has_var k (pattern_view self.pattern) ≡ false }
        ensures { pattern_view result.pattern ≡ pattern_view self.pattern }
    {
        Measured {
            pattern: self.pattern,
            nodes: self.nodes,
            levels: self.levels,
            least: u32::MAX,
        }
    }

    /// A second pattern, the same.
    pub fn copy(&self) -> Result<Measured, AllocError>
        ensures { IfOk result (λ m. pattern_view m.pattern ≡ pattern_view self.now.pattern) }
    {
        let pattern = self.pattern.copy()?;
        Ok(Measured {
            pattern,
            nodes: self.nodes,
            levels: self.levels,
            least: self.least,
        })
    }
}
