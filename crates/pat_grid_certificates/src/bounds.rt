// Which bounds and numbers of tags make a grid.
ghost use Rattle.std.specs.Prelude.{◌≡◌, nat_le};
ghost use Rattle.pat_inclusion_spec.specs.Points.{grid_fits};
ghost use Rattle.pat_inclusion_spec.specs.bounds.Numbers.{points_in};
ghost use Rattle.pat_limits.specs.Limits.{most_points};

use pat_limits::MOST_POINTS;

/// Whether there is a grid of so many tags whose counts are at most `k`: `k` is at least 1, and there are 65,536 points at most.
/// The calls on grids ask for this.
pub fn is_grid(k: u32, tags: u8) -> bool
    ensures { result ≡ grid_fits k tags }
{
    k >= 1 && has_few_points(k, tags)
}

/// Whether there are 65,536 points at most.
fn has_few_points(k: u32, tags: u8) -> bool
    ensures { result ≡ nat_le (points_in k tags) most_points }
{
    let base = k as u64 + 1;
    let mut points = 1;
    let mut counted = 0;
    while counted < tags {
        points *= base;
        if points > MOST_POINTS {
            return false;
        }
        counted += 1;
    }
    true
}
