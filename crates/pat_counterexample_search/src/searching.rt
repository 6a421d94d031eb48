// The search for a refutation.
ghost use Rattle.std.specs.Prelude.{◌<◌, IsTrue, IfOk};
ghost use Rattle.std.specs.List.{AllByRecursion};
ghost use Rattle.pat_words_spec.specs.Flats.{is_flat, degree_of};
ghost use Rattle.pat_words_spec.specs.Tags.{tags_below};
ghost use Rattle.pat_patterns.specs.Views.{pattern_view, patterns_view};
ghost use Rattle.pat_inclusion_spec.specs.Points.{grid_fits};
ghost use Rattle.pat_inclusion_spec.specs.bounds.Trees.{bounds_of};
ghost use Rattle.pat_inclusion_spec.specs.bounds.Searches.{IsAnswer};
ghost use Rattle.pat_witnesses.specs.Views.{search_view};
ghost use Rattle.pat_counterexample_search.specs.Least.{IsLeastAnswer};
ghost use Rattle.pat_limits.specs.Limits.{most_tree_nodes};

use crate::reading::read_answer;
use pat_grid::{Board, least_sizes};
use pat_grid_points::{Role, count_points, lay_out, lay_out_all};
use pat_inclusion_laws::closed_laws;
use pat_limits::MOST_TREE_NODES;
use pat_patterns::Pattern;
use pat_sequences::Sequence;
use pat_witnesses::Search;
use std::alloc::{AllocError, Global};

/// Looks for a word that the left pattern has and the right one lacks, where the variables of the left have the lower bounds of
/// the system: those past its end have none. The right pattern is flat with a degree below `k`, and the tags of all patterns are
/// among the first `tags`; there are 65,536 points at most. The answer is `Inside` exactly where each derivable word of the
/// left is one of the right, `Large` exactly where each tree that refutes has more than 4,096 nodes, and else a refutation
/// of 4,096 nodes at most; no tree that refutes, whichever word it shows, has fewer (`least`).
pub fn refute(
    alloc: Global,
    system: &[Pattern],
    left: &Pattern,
    right: &Pattern,
    k: u32,
    tags: u8,
) -> Result<Search, AllocError>
    requires fits { IsTrue (grid_fits k tags) }
    requires system { AllByRecursion (λ e. IsTrue (tags_below tags e)) (patterns_view system.now) }
    requires left { IsTrue (tags_below tags (pattern_view left.now)) }
    requires right { IsTrue (tags_below tags (pattern_view right.now)) }
    requires flat { IsTrue (is_flat (pattern_view right.now)) }
    requires degree { degree_of (pattern_view right.now) < k }
    ensures answer { IfOk result (λ answer. IsAnswer most_tree_nodes (bounds_of (patterns_view system.now)) (pattern_view left.now)
        (pattern_view right.now) (search_view answer)) }
    ensures least { IfOk result (λ answer. IsLeastAnswer (bounds_of (patterns_view system.now)) (pattern_view left.now)
        (pattern_view right.now) (search_view answer)) }
{
    closed_laws();
    let mut symbols = Sequence::new(alloc);
    let mut roots = Sequence::new(alloc);
    lay_out_all(alloc, system, &mut symbols, &mut roots)?;
    let one = lay_out(alloc, left, Role::Lower, &mut symbols)?;
    let other = lay_out(alloc, right, Role::Lower, &mut symbols)?;
    let board = Board {
        k,
        tags,
        points: count_points(k, tags),
        limit: MOST_TREE_NODES,
        symbols: symbols.as_slice(),
        roots: roots.as_slice(),
        given: &[],
    };
    let entries = least_sizes(alloc, &board)?;
    let answer = read_answer(alloc, &board, &entries, one, other)?;
    Ok(answer)
}
