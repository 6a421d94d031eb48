// Parts of a pattern that is made, any of which may be too large.
ghost use Rattle.std.specs.Prelude.{◌≡◌, ◌+◌, max, IfOk, IfSome, IfNone, false, true};
ghost use Rattle.pat_words_spec.specs.Patterns.{is_zero, is_one, sum_of, prod_of, star_of, Sum, Prod, Star};
ghost use Rattle.pat_words_spec.specs.Sizes.{size_of, levels_of};
ghost use Rattle.pat_inclusion_spec.specs.ClosedForms.{is_small};
ghost use Rattle.pat_patterns.specs.Views.{pattern_view};
ghost use Rattle.pat_solve_bounded.specs.Limits.{within, sum_within, prod_within, star_within, both_fit, zero_if as zero_if_of};
ghost use Rattle.pat_solve_bounded.specs.Views.{part_view, limited_view, measured_view};

use crate::measured::Measured;
use pat_limits::{MOST_LEVELS, MOST_NODES};
use pat_patterns::Pattern;
use std::alloc::{AllocError, Global};
use std::sync::Arc;

/// A part of a pattern that is made. Where a part is an `Option`, `None` stands for one that is too large: what contains it is
/// too large as well, unless a product with 0 takes it away.
#[derive(Drop)]
pub enum Part<'a> {
    /// A pattern of its own.
    Made(Measured),
    /// One that is copied only where it is kept.
    Held(&'a Measured),
}

impl<'a> Part<'a> {
    /// The pattern with its sizes.
    pub fn as_measured(&self) -> &Measured
        ensures { measured_view result.now ≡ part_view self.now }
    {
        match self {
            Part::Made(own) => own,
            Part::Held(held) => held,
        }
    }

    /// The pattern as one of its own.
    pub fn into_measured(self) -> Result<Measured, AllocError>
        ensures { IfOk result (λ m. measured_view m ≡ part_view self.entry) }
    {
        match self {
            Part::Made(own) => Ok(own),
            Part::Held(held) => held.copy(),
        }
    }

    /// A second part, the same.
    fn copy(&self) -> Result<Part<'a>, AllocError>
        ensures { IfOk result (λ p. part_view p ≡ part_view self.now) }
    {
        match self {
            Part::Made(own) => Ok(Part::Made(own.copy()?)),
            Part::Held(held) => Ok(Part::Held(held)),
        }
    }
}

/// How many nodes and levels a sum or a product of the two has as it stands; `None` where that is too large.
fn both_sizes(left: &Measured, right: &Measured) -> Option<(u32, u32)>
    ensures some { IfSome result (λ n. (n.0 ≡ 1 + (size_of (measured_view left.now) + size_of (measured_view right.now)))
        × (n.1 ≡ 1 + max (levels_of (measured_view left.now)) (levels_of (measured_view right.now)))
        × (both_fit (measured_view left.now) (measured_view right.now) ≡ true)) }
    ensures none { IfNone result (both_fit (measured_view left.now) (measured_view right.now) ≡ false) }
{
    if left.nodes >= MOST_NODES || right.nodes >= MOST_NODES - left.nodes {
        return None;
    }
    let levels = left.levels.max(right.levels);
    if levels >= MOST_LEVELS {
        return None;
    }
    Some((left.nodes + right.nodes + 1, levels + 1))
}

/// The sum of two parts, by the simplifying form, unless it is too large.
pub fn sum<'a>(
    alloc: Global,
    left: Option<Part<'a>>,
    right: Option<Part<'a>>,
) -> Result<Option<Part<'a>>, AllocError>
    ensures { IfOk result (λ p. limited_view p ≡ sum_within (limited_view left.entry) (limited_view right.entry)) }
{
    match (left, right) {
        (Some(left), Some(right)) => sum_of_parts(alloc, left, right),
        _ => Ok(None),
    }
}

fn sum_of_parts<'a>(
    alloc: Global,
    left: Part<'a>,
    right: Part<'a>,
) -> Result<Option<Part<'a>>, AllocError>
    ensures { IfOk result (λ p. limited_view p ≡ within (sum_of (part_view left.entry) (part_view right.entry))) }
{
    if left.as_measured().pattern.is_zero() {
        return Ok(Some(right));
    }
    if right.as_measured().pattern.is_zero() {
        return Ok(Some(left));
    }
    if left
        .as_measured()
        .pattern
        .is_same(&right.as_measured().pattern)
    {
        return Ok(Some(left));
    }
    kept_sum(alloc, left, right)
}

/// The sum as it stands, unless it is too large.
fn kept_sum<'a>(
    alloc: Global,
    left: Part<'a>,
    right: Part<'a>,
) -> Result<Option<Part<'a>>, AllocError>
    ensures { IfOk result (λ p. limited_view p ≡ within (Sum (part_view left.entry) (part_view right.entry))) }
{
    let Some((nodes, levels)) = both_sizes(left.as_measured(), right.as_measured()) else {
        return Ok(None);
    };
    let least = left.as_measured().least.min(right.as_measured().least);
    let left = left.into_measured()?;
    let right = right.into_measured()?;
    let pattern = Pattern::Sum(
        Arc::new(alloc, left.pattern)?,
        Arc::new(alloc, right.pattern)?,
    );
    Ok(Some(Part::Made(Measured {
        pattern,
        nodes,
        levels,
        least,
    })))
}

/// The product of two parts, by the simplifying form, unless it is too large.
pub fn product<'a>(
    alloc: Global,
    left: Option<Part<'a>>,
    right: Option<Part<'a>>,
) -> Result<Option<Part<'a>>, AllocError>
    ensures { IfOk result (λ p. limited_view p ≡ prod_within (limited_view left.entry) (limited_view right.entry)) }
{
    match (left, right) {
        (Some(left), Some(right)) => product_of_parts(alloc, left, right),
        (Some(part), None) | (None, Some(part)) => Ok(zero_if(part)),
        (None, None) => Ok(None),
    }
}

/// The product of a part with itself, which is made once.
pub fn square<'a>(alloc: Global, part: Option<Part<'a>>) -> Result<Option<Part<'a>>, AllocError>
    ensures { IfOk result (λ p. limited_view p ≡ prod_within (limited_view part.entry) (limited_view part.entry)) }
{
    match part {
        Some(part) => {
            let second = part.copy()?;
            product_of_parts(alloc, part, second)
        }
        None => Ok(None),
    }
}

/// 0 where the part is 0, and otherwise too large: its product with one that is.
fn zero_if<'a>(part: Part<'a>) -> Option<Part<'a>>
    ensures { limited_view result ≡ zero_if_of (part_view part.entry) }
{
    if part.as_measured().pattern.is_zero() {
        Some(part)
    } else {
        None
    }
}

fn product_of_parts<'a>(
    alloc: Global,
    left: Part<'a>,
    right: Part<'a>,
) -> Result<Option<Part<'a>>, AllocError>
    ensures { IfOk result (λ p. limited_view p ≡ within (prod_of (part_view left.entry) (part_view right.entry))) }
{
    if left.as_measured().pattern.is_zero() || right.as_measured().pattern.is_zero() {
        return Ok(Some(Part::Made(Measured::zero())));
    }
    if left.as_measured().pattern.is_one() {
        return Ok(Some(right));
    }
    if right.as_measured().pattern.is_one() {
        return Ok(Some(left));
    }
    kept_product(alloc, left, right)
}

// As a sum, but for the form: a contract names the form that is made, so it is no argument.
/// The product as it stands, unless it is too large.
fn kept_product<'a>(
    alloc: Global,
    left: Part<'a>,
    right: Part<'a>,
) -> Result<Option<Part<'a>>, AllocError>
    ensures { IfOk result (λ p. limited_view p ≡ within (Prod (part_view left.entry) (part_view right.entry))) }
{
    let Some((nodes, levels)) = both_sizes(left.as_measured(), right.as_measured()) else {
        return Ok(None);
    };
    let least = left.as_measured().least.min(right.as_measured().least);
    let left = left.into_measured()?;
    let right = right.into_measured()?;
    let pattern = Pattern::Prod(
        Arc::new(alloc, left.pattern)?,
        Arc::new(alloc, right.pattern)?,
    );
    Ok(Some(Part::Made(Measured {
        pattern,
        nodes,
        levels,
        least,
    })))
}

/// The star of a part, by the simplifying form, unless it is too large.
pub fn star<'a>(alloc: Global, part: Option<Part<'a>>) -> Result<Option<Part<'a>>, AllocError>
    ensures { IfOk result (λ p. limited_view p ≡ star_within (limited_view part.entry)) }
{
    match part {
        Some(part) => star_of_part(alloc, part),
        None => Ok(None),
    }
}

fn star_of_part<'a>(alloc: Global, part: Part<'a>) -> Result<Option<Part<'a>>, AllocError>
    ensures { IfOk result (λ p. limited_view p ≡ within (star_of (part_view part.entry))) }
{
    let inner = part.as_measured();
    if inner.pattern.is_zero() || inner.pattern.is_one() {
        return Ok(Some(Part::Made(Measured::one())));
    }
    kept_star(alloc, part)
}

/// The star as it stands, unless it is too large.
fn kept_star<'a>(alloc: Global, part: Part<'a>) -> Result<Option<Part<'a>>, AllocError>
    ensures { IfOk result (λ p. limited_view p ≡ within (Star (part_view part.entry))) }
{
    let inner = part.as_measured();
    if inner.nodes >= MOST_NODES || inner.levels >= MOST_LEVELS {
        return Ok(None);
    }
    let inner = part.into_measured()?;
    let nodes = inner.nodes + 1;
    let levels = inner.levels + 1;
    let least = inner.least;
    let pattern = Pattern::Star(Arc::new(alloc, inner.pattern)?);
    Ok(Some(Part::Made(Measured {
        pattern,
        nodes,
        levels,
        least,
    })))
}
