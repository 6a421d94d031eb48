// The simplifying forms.
ghost use Rattle.std.specs.Prelude.{◌≡◌, IfOk};
ghost use Rattle.pat_words_spec.specs.Patterns.{sum_of, prod_of, star_of};
ghost use Rattle.pat_patterns.specs.Views.{pattern_view};

use crate::pattern::Pattern;
use std::alloc::{AllocError, Global};
use std::sync::Arc;

/// The sum: 0 is left out, and of two same sides one.
pub fn sum(alloc: Global, left: Pattern, right: Pattern) -> Result<Pattern, AllocError>
    ensures { IfOk result (λ p. pattern_view p ≡ sum_of (pattern_view left) (pattern_view right)) }
{
    if left.is_zero() {
        return Ok(right);
    }
    if right.is_zero() || left.is_same(&right) {
        return Ok(left);
    }
    Ok(Pattern::Sum(Arc::new(alloc, left)?, Arc::new(alloc, right)?))
}

/// The product: with 0 it is 0, and 1 is left out.
pub fn product(alloc: Global, left: Pattern, right: Pattern) -> Result<Pattern, AllocError>
    ensures { IfOk result (λ p. pattern_view p ≡ prod_of (pattern_view left) (pattern_view right)) }
{
    if left.is_zero() || right.is_zero() {
        return Ok(Pattern::Zero);
    }
    if left.is_one() {
        return Ok(right);
    }
    if right.is_one() {
        return Ok(left);
    }
    Ok(Pattern::Prod(Arc::new(alloc, left)?, Arc::new(alloc, right)?))
}

/// The star: that of 0 and that of 1 are 1.
pub fn star(alloc: Global, part: Pattern) -> Result<Pattern, AllocError>
    ensures { IfOk result (λ p. pattern_view p ≡ star_of (pattern_view part)) }
{
    if part.is_zero() || part.is_one() {
        return Ok(Pattern::One);
    }
    Ok(Pattern::Star(Arc::new(alloc, part)?))
}
