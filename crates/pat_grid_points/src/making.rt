// Grids made.
ghost use Rattle.std.specs.Prelude.{◌≡◌, ◌↔◌, ◌<◌, ◌≤◌, ◌+◌, ◌-◌, length, map, get_or, IsTrue, IfOk};
ghost use Rattle.pat_words_spec.specs.Words.{Word};
ghost use Rattle.pat_words_spec.specs.Languages.{MemberOf};
ghost use Rattle.pat_bags.specs.Views.{word_of};
ghost use Rattle.pat_inclusion_spec.specs.Points.{grid_fits, points_fit};
ghost use Rattle.pat_inclusion_spec.specs.bounds.Numbers.{points_in};
ghost use Rattle.pat_grid_points.specs.Views.{HasPoint, numbers_of};

use crate::grid::Grid;
use crate::numbers::{count_points, number_of};
use crate::sparse::SparseList;
use pat_bags::Bag;
use pat_inclusion_laws::number_laws;
use std::alloc::{AllocError, Global};

impl Grid {
    /// The grid of the points whose number's entry says so.
    pub fn from_held(k: u32, tags: u8, held: SparseList<bool>) -> Grid
        requires fits { IsTrue (grid_fits k tags) }
        requires counted { length held ≡ points_in k tags }
        ensures { (result.k ≡ k) × (result.tags ≡ tags) × (result.held ≡ held) }
    {
        Grid { k, tags, held }
    }

    /// The grid of these points, which are in ascending order. Those whose numbers follow one another are put in together.
    pub fn from_points(alloc: Global, k: u32, tags: u8, points: &[Bag]) -> Result<Grid, AllocError>
        requires { IsTrue (points_fit k tags (map (λ b. b.counts) points.now)) }
        ensures like { IfOk result (λ g. (g.k ≡ k) × (g.tags ≡ tags)) }
        ensures points { IfOk result (λ g. (u : Word) → HasPoint g u ↔ MemberOf (map word_of points.now) u) }
    {
        number_laws();
        let mut held = SparseList::repeat(alloc, false, count_points(k, tags))?;
        let mut rest = points;
        while let [first, ..] = rest {
            let number = number_of(first, k, tags);
            let run = run_at(rest, number, k, tags);
            held.fill(number, run, true)?;
            rest = &rest[run..];
        }
        Ok(Grid { k, tags, held })
    }
}

/// Of how many points, from the first on, the last one's number is as much higher than this one, the first's, as it comes later.
fn run_at(points: &[Bag], number: usize, k: u32, tags: u8) -> usize
    requires fits { IsTrue (grid_fits k tags) }
    requires some { 0 < length points.now }
    requires first { get_or (numbers_of k tags points.now) 0 0 ≡ number }
    ensures some { 0 < result }
    ensures within { result ≤ length points.now }
    ensures last { get_or (numbers_of k tags points.now) (result - 1) 0 ≡ number + (result - 1) }
{
    let mut run = 1;
    while run <= points.len() / 2 {
        let last = run * 2 - 1;
        if number_of(&points[last], k, tags).saturating_sub(number) != last {
            return run;
        }
        run *= 2;
    }
    run
}
