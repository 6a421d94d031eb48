// The patterns of sets of points, built only as long as they are small.
ghost use Rattle.std.specs.Prelude.{◌≡◌, ◌<◌, map, IfOk};
ghost use Rattle.pat_inclusion_spec.specs.Counts.{counted};
ghost use Rattle.pat_inclusion_spec.specs.Points.{tag_power, count_pattern, point_pattern, points_pattern};
ghost use Rattle.pat_certificate_values.specs.Views.{counts_of};
ghost use Rattle.pat_certificate_values.specs.forms.Limits.{Limits};

use crate::forms::building::{Built, leaf, product, star, sum};
use pat_bags::{Bag, TAGS};
use pat_patterns::Pattern;
use std::alloc::{AllocError, Global};

/// So many messages with the tag.
#[tactic(auto, using(crate::proofs::Powers::power_stays))]
fn power(alloc: Global, tag: u8, count: u32) -> Result<Option<Built>, AllocError>
    ensures { IfOk result (Limits (tag_power tag count)) }
{
    let mut made = leaf(Pattern::One);
    for _done in 0..count {
        match product(alloc, made, leaf(Pattern::Tag(tag)))? {
            None => return Ok(None),
            Some(more) => made = more,
        }
    }
    Ok(Some(made))
}

/// At least so many messages with the tag.
#[tactic(auto, using(crate::proofs::Powers::count_full, crate::proofs::Powers::full_large))]
fn power_and_more(alloc: Global, tag: u8, count: u32) -> Result<Option<Built>, AllocError>
    ensures { IfOk result (Limits (count_pattern count tag count)) }
{
    match power(alloc, tag, count)? {
        None => Ok(None),
        Some(least) => match star(alloc, leaf(Pattern::Tag(tag)))? {
            None => Ok(None),
            Some(more) => product(alloc, least, more),
        },
    }
}

/// Just so many messages with the tag, or `k` and any more where there are `k`.
#[tactic(auto, using(crate::proofs::Powers::count_less, crate::proofs::Powers::count_full))]
fn counted_tag(alloc: Global, k: u32, tag: u8, count: u32) -> Result<Option<Built>, AllocError>
    ensures { IfOk result (Limits (count_pattern k tag count)) }
{
    if count < k {
        power(alloc, tag, count)
    } else {
        power_and_more(alloc, tag, k)
    }
}

fn count_of(point: &Bag, tag: usize) -> u32
    ensures { result ≡ counted point.now.counts tag }
{
    if tag < TAGS { point.counts[tag] } else { 0 }
}

/// The words of so many tags that are cut to the point.
fn point(alloc: Global, k: u32, tags: usize, own: &Bag) -> Result<Option<Built>, AllocError>
    requires { tags < 33 }
    ensures { IfOk result (Limits (point_pattern k tags (counted own.now.counts))) }
{
    let mut made = leaf(Pattern::One);
    for tag in 0..tags {
        let count = count_of(own, tag);
        match counted_tag(alloc, k, tag as u8, count)? {
            None => return Ok(None),
            Some(next) => match product(alloc, made, next)? {
                None => return Ok(None),
                Some(more) => made = more,
            },
        }
    }
    Ok(Some(made))
}

/// The words of so many tags that are cut to one of the points.
pub fn points(alloc: Global, k: u32, tags: usize, all: &[Bag]) -> Result<Option<Built>, AllocError>
    requires { tags < 33 }
    ensures { IfOk result (Limits (points_pattern k tags (map counts_of all.now))) }
{
    let mut made = leaf(Pattern::Zero);
    for own in all {
        match point(alloc, k, tags, own)? {
            None => return Ok(None),
            Some(next) => match sum(alloc, made, next)? {
                None => return Ok(None),
                Some(more) => made = more,
            },
        }
    }
    Ok(Some(made))
}
