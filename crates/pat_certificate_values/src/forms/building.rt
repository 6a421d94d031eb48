// The simplifying forms of patterns that are built only as long as they are small.
ghost use Rattle.std.specs.Prelude.{◌≡◌, ◌<◌, Some, IfOk};
ghost use Rattle.pat_words_spec.specs.Patterns.{Pat, sum_of, prod_of, star_of};
ghost use Rattle.pat_words_spec.specs.Sizes.{size_of};
ghost use Rattle.pat_patterns.specs.Views.{pattern_view};
ghost use Rattle.pat_certificate_values.specs.forms.Limits.{IsCounted, IsLimited, Limits};
ghost use Rattle.pat_limits.specs.Limits.{most_nodes};

use pat_limits::MOST_NODES;
use pat_patterns::{Pattern, size};
use std::alloc::{AllocError, Global};
use std::sync::Arc;

/// A pattern with its number of nodes, of which there are 65,536 at most.
#[derive(Drop)]
pub struct Built {
    pub pattern: Pattern,
    pub size: u32,
}

/// A pattern of one node.
pub fn leaf(pattern: Pattern) -> Built
    requires { size_of (pattern_view pattern) ≡ 1 }
    ensures { Limits (pattern_view pattern) (Some result) }
{
    Built { pattern, size: 1 }
}

/// A copy of the pattern, unless it is too large.
pub fn copied(pattern: &Pattern) -> Result<Option<Built>, AllocError>
    ensures { IfOk result (Limits (pattern_view pattern.now)) }
{
    let size = size(pattern);
    if size > MOST_NODES {
        return Ok(None);
    }
    let pattern = pattern.copy()?;
    Ok(Some(Built { pattern, size }))
}

fn join_sum(alloc: Global, left: Built, right: Built) -> Result<Option<Built>, AllocError>
    requires left { IsCounted left }
    requires right { IsCounted right }
    requires is { sum_of (pattern_view left.pattern) (pattern_view right.pattern)
        ≡ Pat.Sum (pattern_view left.pattern) (pattern_view right.pattern) }
    ensures { IfOk result (Limits (sum_of (pattern_view left.pattern) (pattern_view right.pattern))) }
{
    let size = 1 + left.size + right.size;
    if size > MOST_NODES {
        return Ok(None);
    }
    let pattern = Pattern::Sum(
        Arc::new(alloc, left.pattern)?,
        Arc::new(alloc, right.pattern)?,
    );
    Ok(Some(Built { pattern, size }))
}

/// The sum: 0 is left out, and of two same sides one.
#[tactic(auto, using(crate::proofs::Large::zero_sum, crate::proofs::Large::sum_zero, crate::proofs::Large::sum_same, crate::proofs::Large::sum_differ))]
pub fn sum(alloc: Global, left: Built, right: Built) -> Result<Option<Built>, AllocError>
    requires left { IsCounted left }
    requires right { IsCounted right }
    ensures { IfOk result (Limits (sum_of (pattern_view left.pattern) (pattern_view right.pattern))) }
{
    if left.pattern.is_zero() {
        return Ok(Some(right));
    }
    if right.pattern.is_zero() || left.pattern.is_same(&right.pattern) {
        return Ok(Some(left));
    }
    join_sum(alloc, left, right)
}

fn join_product(alloc: Global, left: Built, right: Built) -> Result<Option<Built>, AllocError>
    requires left { IsCounted left }
    requires right { IsCounted right }
    requires is { prod_of (pattern_view left.pattern) (pattern_view right.pattern)
        ≡ Pat.Prod (pattern_view left.pattern) (pattern_view right.pattern) }
    ensures { IfOk result (Limits (prod_of (pattern_view left.pattern) (pattern_view right.pattern))) }
{
    let size = 1 + left.size + right.size;
    if size > MOST_NODES {
        return Ok(None);
    }
    let pattern = Pattern::Prod(
        Arc::new(alloc, left.pattern)?,
        Arc::new(alloc, right.pattern)?,
    );
    Ok(Some(Built { pattern, size }))
}

/// The product: with 0 it is 0, and 1 is left out.
#[tactic(auto, using(crate::proofs::Large::product_zero_left, crate::proofs::Large::product_zero_right, crate::proofs::Large::product_one_left, crate::proofs::Large::product_one_right, crate::proofs::Large::product_other))]
pub fn product(alloc: Global, left: Built, right: Built) -> Result<Option<Built>, AllocError>
    requires left { IsCounted left }
    requires right { IsCounted right }
    ensures { IfOk result (Limits (prod_of (pattern_view left.pattern) (pattern_view right.pattern))) }
{
    if left.pattern.is_zero() || right.pattern.is_zero() {
        return Ok(Some(leaf(Pattern::Zero)));
    }
    if left.pattern.is_one() {
        return Ok(Some(right));
    }
    if right.pattern.is_one() {
        return Ok(Some(left));
    }
    join_product(alloc, left, right)
}

/// The star: that of 0 and that of 1 are 1.
#[tactic(auto, using(crate::proofs::Large::star_flat, crate::proofs::Large::star_other))]
pub fn star(alloc: Global, part: Built) -> Result<Option<Built>, AllocError>
    requires { IsCounted part }
    ensures { IfOk result (Limits (star_of (pattern_view part.pattern))) }
{
    if part.pattern.is_zero() || part.pattern.is_one() {
        return Ok(Some(leaf(Pattern::One)));
    }
    let size = 1 + part.size;
    if size > MOST_NODES {
        return Ok(None);
    }
    let pattern = Pattern::Star(Arc::new(alloc, part.pattern)?);
    Ok(Some(Built { pattern, size }))
}

/// The sum, where the sides may be too large.
pub fn sum_within(
    alloc: Global,
    left: Option<Built>,
    right: Option<Built>,
) -> Result<Option<Built>, AllocError>
    requires left { IsLimited left }
    requires right { IsLimited right }
    ensures { IfOk result (λ o. (e f : Pat) → Limits e left → Limits f right → Limits (sum_of e f) o) }
{
    match left {
        None => Ok(None),
        Some(left) => match right {
            None => Ok(None),
            Some(right) => sum(alloc, left, right),
        },
    }
}

fn zero_if(part: Built) -> Option<Built>
    requires { IsCounted part }
    ensures { (e : Pat) → most_nodes < size_of e → Limits (prod_of e (pattern_view part.pattern)) result
        × Limits (prod_of (pattern_view part.pattern) e) result }
{
    if part.pattern.is_zero() {
        Some(part)
    } else {
        None
    }
}

/// The product, where the sides may be too large.
pub fn product_within(
    alloc: Global,
    left: Option<Built>,
    right: Option<Built>,
) -> Result<Option<Built>, AllocError>
    requires left { IsLimited left }
    requires right { IsLimited right }
    ensures { IfOk result (λ o. (e f : Pat) → Limits e left → Limits f right → Limits (prod_of e f) o) }
{
    match left {
        None => match right {
            None => Ok(None),
            Some(right) => Ok(zero_if(right)),
        },
        Some(left) => match right {
            None => Ok(zero_if(left)),
            Some(right) => product(alloc, left, right),
        },
    }
}

/// The star, where the part may be too large.
pub fn star_within(alloc: Global, part: Option<Built>) -> Result<Option<Built>, AllocError>
    requires { IsLimited part }
    ensures { IfOk result (λ o. (e : Pat) → Limits e part → Limits (star_of e) o) }
{
    match part {
        None => Ok(None),
        Some(part) => star(alloc, part),
    }
}
