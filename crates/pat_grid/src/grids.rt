// Words of a pattern and derivable words of a system, cut.
ghost use Rattle.std.specs.Prelude.{◌≡◌, ◌↔◌, ℕ, Some, slice_get, length, IsTrue, IfOk};
ghost use Rattle.std.specs.List.{AllByRecursion};
ghost use Rattle.pat_words_spec.specs.Words.{Word};
ghost use Rattle.pat_words_spec.specs.Patterns.{InUnder};
ghost use Rattle.pat_words_spec.specs.Tags.{tags_below};
ghost use Rattle.pat_words_spec.specs.Cuts.{CutOf};
ghost use Rattle.pat_words_spec.specs.Languages.{MemberOf};
ghost use Rattle.pat_patterns.specs.Views.{pattern_view, patterns_view};
ghost use Rattle.pat_inclusion_spec.specs.Points.{grid_fits};
ghost use Rattle.pat_inclusion_spec.specs.bounds.Trees.{bounds_of, derivable};
ghost use Rattle.pat_inclusion_spec.specs.bounds.CutSets.{IsPoint};
ghost use Rattle.pat_grid_points.specs.declared.grid.Grid.{Grid as GridValue};
ghost use Rattle.pat_grid_points.specs.Views.{HasPoint};
ghost use Rattle.pat_grid.specs.tables.Views.{given_words, AreGrids};

use crate::rows::{row, row_grids};
use crate::tables::{Board, least_sizes};
use pat_grid_points::{Grid, Role, count_points, lay_out, lay_out_all};
use pat_patterns::Pattern;
use pat_sequences::Sequence;
use std::alloc::{AllocError, Global};

/// The words of the pattern, each cut at `k`, where variable n has the words of the n-th grid. The grids are of `tags` tags and
/// have `k` as the greatest count; `k` is at least 1, and there are 65,536 points at most.
pub fn eval(alloc: Global, p: &Pattern, env: &[Grid], k: u32, tags: u8) -> Result<Grid, AllocError>
    requires fits { IsTrue (grid_fits k tags) }
    requires tags { IsTrue (tags_below tags (pattern_view p.now)) }
    requires grids { AreGrids k tags env.now }
    ensures like { IfOk result (λ g. (g.k ≡ k) × (g.tags ≡ tags)) }
    ensures points { IfOk result (λ g. (u : Word) → IsPoint k tags u
        → HasPoint g u ↔ CutOf k (InUnder (λ j. MemberOf (given_words env.now j)) (pattern_view p.now)) u) }
{
    let mut symbols = Sequence::new(alloc);
    let root = lay_out(alloc, p, Role::Given, &mut symbols)?;
    let board = Board {
        k,
        tags,
        points: count_points(k, tags),
        limit: 0,
        symbols: symbols.as_slice(),
        roots: &[],
        given: env,
    };
    let entries = least_sizes(alloc, &board)?;
    let grid = row(alloc, &board, &entries, root)?;
    Ok(grid)
}

/// For each variable the words that are derivable, each cut at `k`. A variable past the end of the system has none.
pub fn least(
    alloc: Global,
    system: &[Pattern],
    k: u32,
    tags: u8,
) -> Result<Sequence<Grid>, AllocError>
    requires fits { IsTrue (grid_fits k tags) }
    requires tags { AllByRecursion (λ e. IsTrue (tags_below tags e)) (patterns_view system.now) }
    ensures count { IfOk result (λ grids. length grids ≡ length system.now) }
    ensures like { IfOk result (λ grids. AreGrids k tags grids) }
    ensures points { IfOk result (λ grids. (j : ℕ) (g : GridValue) (u : Word) → slice_get grids j ≡ Some g → IsPoint k tags u
        → HasPoint g u ↔ CutOf k (derivable (bounds_of (patterns_view system.now)) j) u) }
{
    let mut symbols = Sequence::new(alloc);
    let mut roots = Sequence::new(alloc);
    lay_out_all(alloc, system, &mut symbols, &mut roots)?;
    let board = Board {
        k,
        tags,
        points: count_points(k, tags),
        limit: 0,
        symbols: symbols.as_slice(),
        roots: roots.as_slice(),
        given: &[],
    };
    let entries = least_sizes(alloc, &board)?;
    let grids = row_grids(alloc, &board, &entries, board.roots)?;
    Ok(grids)
}
