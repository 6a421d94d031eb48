// Whether points are ones of a grid, in ascending order.
ghost use Rattle.std.specs.Prelude.{◌≡◌, nat_lt, map};
ghost use Rattle.std.specs.List.{list_all, list_any};
ghost use Rattle.pat_inclusion_spec.specs.Points as grid;
ghost use Rattle.pat_certificate_values.specs.points.Views.{counts_view};

use pat_bags::Bag;
use pat_limits::MOST_POINTS;

/// Whether grids of so many tags with this bound are worked with: there are 65,536 points at most.
fn grid_fits(k: u32, tags: u32) -> bool
    ensures { result ≡ grid.grid_fits k tags }
{
    if k == 0 {
        return false;
    }
    match (k as u64 + 1).checked_pow(tags) {
        Some(count) => count <= MOST_POINTS,
        None => false,
    }
}

/// Whether the first counts are at most `k`, and the others 0.
fn point_fits(k: u32, tags: usize, counts: &[u32]) -> bool
    ensures { result ≡ grid.point_fits k tags counts.now }
{
    match counts {
        [] => true,
        [count, more @ ..] => {
            if tags == 0 {
                *count == 0 && point_fits(k, 0, more)
            } else {
                *count <= k && point_fits(k, tags - 1, more)
            }
        }
    }
}

fn each_fits(k: u32, tags: usize, points: &[Bag]) -> bool
    ensures { result ≡ list_all (grid.point_fits k tags) (counts_view points.now) }
{
    for point in points {
        if !point_fits(k, tags, point.counts.as_slice()) {
            return false;
        }
    }
    true
}

fn has_count(counts: &[u32]) -> bool
    ensures { result ≡ list_any (nat_lt 0) counts.now }
{
    match counts {
        [] => false,
        [count, more @ ..] => 0 < *count || has_count(more),
    }
}

/// Whether the first point comes before the second.
fn comes_before(first: &[u32], second: &[u32]) -> bool
    ensures { result ≡ grid.comes_before first.now second.now }
{
    match first {
        [] => has_count(second),
        [count, more @ ..] => match second {
            [] => false,
            [other, others @ ..] => {
                *count < *other || *count == *other && comes_before(more, others)
            }
        },
    }
}

fn points_ascend(points: &[Bag]) -> bool
    ensures { result ≡ grid.points_ascend (counts_view points.now) }
{
    let mut rest = points;
    while let [first, more @ ..] = rest {
        if let [second, ..] = more {
            if !comes_before(first.counts.as_slice(), second.counts.as_slice()) {
                return false;
            }
        }
        rest = more;
    }
    true
}

/// Whether the points are ones of a grid of so many tags with this bound, which is worked with, and ascend.
pub fn points_fit(k: u32, tags: u32, points: &[Bag]) -> bool
    ensures { result ≡ grid.points_fit k tags (counts_view points.now) }
{
    grid_fits(k, tags) && each_fits(k, tags as usize, points) && points_ascend(points)
}
