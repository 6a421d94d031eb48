// Values of variables, cut: as grids.
ghost use Rattle.std.specs.Prelude.{◌≡◌, ◌↔◌, ◌≤◌, ℕ, length, IsTrue, IfOk};
ghost use Rattle.std.specs.List.{AllByRecursion};
ghost use Rattle.pat_words_spec.specs.Words.{Word};
ghost use Rattle.pat_words_spec.specs.Patterns.{In};
ghost use Rattle.pat_words_spec.specs.Tags.{HasTagsBelow};
ghost use Rattle.pat_words_spec.specs.Cuts.{cut_at, CutOf};
ghost use Rattle.pat_bags.specs.Views.{word_of};
ghost use Rattle.pat_inclusion_spec.specs.Points.{grid_fits};
ghost use Rattle.pat_inclusion_spec.specs.Values.{GridForm, value_fits};
ghost use Rattle.pat_inclusion_spec.specs.bounds.CutSets.{IsPoint};
ghost use Rattle.pat_grid_points.specs.Views.{HasPoint};
ghost use Rattle.pat_grid_certificates.specs.Views.{value_view, values_view, counts_view};
ghost use Rattle.pat_grid_certificates.specs.Shows.{ValuesFit};
ghost use Rattle.pat_grid_certificates.specs.Cutting.{IsCutMember, IsValueGrid, AreValueGrids};

use crate::values::VarValue;
use pat_bags::Bag;
use pat_grid::{Grid, eval};
use pat_grid_points::{SparseList, bag_of, count_points, number_of};
use pat_sequences::Sequence;
use std::alloc::{AllocError, Global};

/// The grid of the words, each cut at `k`.
fn marked(alloc: Global, words: &[Bag], k: u32, tags: u8) -> Result<Grid, AllocError>
    requires fits { IsTrue (grid_fits k tags) }
    requires tags { AllByRecursion (λ b. HasTagsBelow tags (word_of b)) words.now }
    ensures like { IfOk result (λ g. (g.k ≡ k) × (g.tags ≡ tags)) }
    ensures points { IfOk result (λ g. (u : Word) → HasPoint g u ↔ IsCutMember k words.now u) }
{
    let mut held = SparseList::repeat(alloc, false, count_points(k, tags))?;
    for word in words {
        let number = number_of(word, k, tags);
        held.set(number, true)?;
    }
    Ok(Grid::from_held(k, tags, held))
}

/// The grid of the points that, cut at the other grid's bound, are points of it. That bound is no greater.
fn spread(alloc: Global, own: &Grid, k: u32) -> Result<Grid, AllocError>
    requires { IsTrue (grid_fits k own.now.tags) }
    ensures like { IfOk result (λ g. (g.k ≡ k) × (g.tags ≡ own.now.tags)) }
    ensures points { IfOk result (λ g. (u : Word) → IsPoint k own.now.tags u → HasPoint g u ↔ HasPoint own.now (cut_at own.now.k u)) }
{
    let points = count_points(k, own.tags);
    let mut held = SparseList::repeat(alloc, false, points)?;
    for number in 0..points {
        let point = bag_of(number, k, own.tags);
        held.set(number, own.holds(&point))?;
    }
    Ok(Grid::from_held(k, own.tags, held))
}

/// The words of the value, each cut at `k`. Points under another bound are cut one by one.
fn value_grid(alloc: Global, value: &VarValue, k: u32, tags: u8) -> Result<Grid, AllocError>
    requires fits { IsTrue (grid_fits k tags) }
    requires value { IsTrue (value_fits tags (value_view value.now)) }
    ensures { IfOk result (IsValueGrid k tags (value_view value.now)) }
{
    match value {
        VarValue::Pattern(p) => {
            let grid = eval(alloc, p, &[], k, tags)?;
            Ok(grid)
        }
        VarValue::Grid { k: bound, points } => {
            points_grid(alloc, *bound, points.as_slice(), k, tags)
        }
    }
}

/// The words that, cut at `bound`, are one of the points, each cut at `k`.
fn points_grid(
    alloc: Global,
    bound: u32,
    points: &[Bag],
    k: u32,
    tags: u8,
) -> Result<Grid, AllocError>
    requires fits { IsTrue (grid_fits k tags) }
    requires value { IsTrue (value_fits tags (GridForm bound (counts_view points.now))) }
    ensures { IfOk result (IsValueGrid k tags (GridForm bound (counts_view points.now))) }
{
    if bound > k {
        return marked(alloc, points, k, tags);
    }
    let own = Grid::from_points(alloc, bound, tags, points)?;
    if bound == k {
        return Ok(own);
    }
    spread(alloc, &own, k)
}

/// Of each value the words, cut at `k`.
pub fn value_grids(
    alloc: Global,
    values: &[VarValue],
    k: u32,
    tags: u8,
) -> Result<Sequence<Grid>, AllocError>
    requires fits { IsTrue (grid_fits k tags) }
    requires values { ValuesFit tags (values_view values.now) }
    ensures { IfOk result (AreValueGrids k tags (values_view values.now)) }
{
    let mut grids = Sequence::new(alloc);
    for value in values {
        let grid = value_grid(alloc, value, k, tags)?;
        grids.push(grid)?;
    }
    Ok(grids)
}
