// The check of a certificate by a grid.
ghost use Rattle.std.specs.Prelude.{◌≡◌, ◌↔◌, Some, slice_get, IsTrue, IfOk};
ghost use Rattle.pat_words_spec.specs.Words.{Word};
ghost use Rattle.pat_words_spec.specs.Patterns.{Included, Var, subst_of};
ghost use Rattle.pat_words_spec.specs.Tags.{tags_below};
ghost use Rattle.pat_patterns.specs.Views.{pattern_view};
ghost use Rattle.pat_inclusion_spec.specs.Points.{grid_fits};
ghost use Rattle.pat_grid_points.specs.declared.grid.Grid.{Grid as GridValue};
ghost use Rattle.pat_grid_points.specs.Views.{HasPoint, IsLike};
ghost use Rattle.pat_grid.specs.tables.Views.{AreGrids};
ghost use Rattle.pat_grid_certificates.specs.Views.{values_view, right_view};
ghost use Rattle.pat_grid_certificates.specs.Shows.{is_large, patterns_of, right_of, right_tags, CutsLie, ValuesFit, WordsLie};

use crate::cutting::value_grids;
use crate::large::is_large_enough;
use crate::values::{Right, VarValue};
use pat_grid::{Grid, eval};
use pat_patterns::Pattern;
use std::alloc::{AllocError, Global};

/// Whether the bound is large enough for the right side as it stands, and each word of the left, cut at `k`, is a word of the
/// right, cut. The patterns are of `tags` tags, and so are the values of the variables, which are numbered from 0. Where it
/// says yes, each word of the left is one of the right.
pub fn check_grid(
    alloc: Global,
    left: &Pattern,
    right: &Right,
    vars: &[VarValue],
    k: u32,
    tags: u8,
) -> Result<bool, AllocError>
    requires fits { IsTrue (grid_fits k tags) }
    requires left { IsTrue (tags_below tags (pattern_view left.now)) }
    requires right { IsTrue (right_tags tags (right_view right.now)) }
    requires values { ValuesFit tags (values_view vars.now) }
    ensures shown { let vs = values_view vars.now in IfOk result
        (λ yes. IsTrue yes
        ↔ (IsTrue (is_large k vs (right_view right.now))
        × CutsLie k tags (subst_of (patterns_of tags vs) (pattern_view left.now))
        (right_of tags vs (right_view right.now)))) }
    ensures included { let vs = values_view vars.now in IfOk result
        (λ yes. IsTrue yes
        → Included (subst_of (patterns_of tags vs) (pattern_view left.now)) (right_of tags vs (right_view right.now))) }
{
    if !is_large_enough(right, vars, k) {
        return Ok(false);
    }
    let env = value_grids(alloc, vars, k, tags)?;
    let grids = env.as_slice();
    match right {
        Right::Pattern(f) => {
            let rights = eval(alloc, f, &[], k, tags)?;
            words_lie_in(alloc, left, grids, &rights)
        }
        Right::Var(variable) => words_lie_in_one(alloc, left, grids, *variable as usize, k, tags),
    }
}

/// Whether there is a grid at the place, and the words of the pattern, cut, are points of it.
fn words_lie_in_one(
    alloc: Global,
    p: &Pattern,
    grids: &[Grid],
    place: usize,
    k: u32,
    tags: u8,
) -> Result<bool, AllocError>
    requires tags { IsTrue (tags_below tags (pattern_view p.now)) }
    requires grids { AreGrids k tags grids.now }
    ensures { IfOk result (λ yes. IsTrue yes
        ↔ ((g : GridValue) × (slice_get grids.now place ≡ Some g) × WordsLie grids.now (pattern_view p.now) g)) }
{
    if place < grids.len() {
        words_lie_in(alloc, p, grids, &grids[place])
    } else {
        Ok(false)
    }
}

/// Whether the words of the pattern, where variable n has those of the n-th grid, are points of the other grid once they are cut. Those
/// of a sum are looked at arm by arm, and need not be put together.
#[tactic(auto, using(crate::proofs::Meaning::sum_refused, crate::proofs::Meaning::sum_rest))]
fn words_lie_in(alloc: Global, p: &Pattern, env: &[Grid], other: &Grid) -> Result<bool, AllocError>
    requires tags { IsTrue (tags_below other.now.tags (pattern_view p.now)) }
    requires grids { AreGrids other.now.k other.now.tags env.now }
    ensures { IfOk result (λ yes. IsTrue yes ↔ WordsLie env.now (pattern_view p.now) other.now) }
{
    match p {
        Pattern::Sum(left, right) => {
            if !words_lie_in(alloc, left, env, other)? {
                return Ok(false);
            }
            words_lie_in(alloc, right, env, other)
        }
        Pattern::Var(variable) => Ok(value_lies_in(env, *variable as usize, other)),
        _ => made_lies_in(alloc, p, env, other),
    }
}

/// Whether the points of the grid at the place, if there is one, are points of the other.
fn value_lies_in(env: &[Grid], place: usize, other: &Grid) -> bool
    requires { AreGrids other.now.k other.now.tags env.now }
    ensures { IsTrue result ↔ WordsLie env.now (Var place) other.now }
{
    if place < env.len() {
        lies_in(&env[place], other)
    } else {
        true
    }
}

/// So where the grid of the pattern is made.
#[inline(never)]
#[tactic(auto, using(crate::proofs::Meaning::made_lies))]
fn made_lies_in(alloc: Global, p: &Pattern, env: &[Grid], other: &Grid) -> Result<bool, AllocError>
    requires tags { IsTrue (tags_below other.now.tags (pattern_view p.now)) }
    requires grids { AreGrids other.now.k other.now.tags env.now }
    ensures { IfOk result (λ yes. IsTrue yes ↔ WordsLie env.now (pattern_view p.now) other.now) }
{
    let grid = eval(alloc, p, env, other.k, other.tags)?;
    Ok(lies_in(&grid, other))
}

/// Whether each point of the one grid is one of the other.
fn lies_in(grid: &Grid, other: &Grid) -> bool
    requires { IsLike grid.now other.now }
    ensures { IsTrue result ↔ ((u : Word) → HasPoint grid.now u → HasPoint other.now u) }
{
    grid.missing(other).is_none()
}
