// The check of a refutation.
ghost use Rattle.std.specs.Prelude.{◌↔◌, IsTrue, IfOk};
ghost use Rattle.pat_bags.specs.Views.{word_of};
ghost use Rattle.pat_patterns.specs.Views.{pattern_view, patterns_view};
ghost use Rattle.pat_inclusion_spec.specs.bounds.Trees.{bounds_of};
ghost use Rattle.pat_inclusion_spec.specs.bounds.Searches.{Refutes};
ghost use Rattle.pat_witnesses.specs.Views.{bound_view};

use crate::membership::member;
use crate::walk::shows;
use pat_inclusion_laws::derivable_laws;
use pat_patterns::Pattern;
use pat_witnesses::Refutation;
use std::alloc::{AllocError, Global};

/// Whether the tree shows the word for the left pattern, where variables have the lower bounds of the system, and the word isn't one of
/// the right pattern. So where the answer is yes, no solution of constraints with these lower bounds has the left within the right.
pub fn check_refutation(
    alloc: Global,
    system: &[Pattern],
    left: &Pattern,
    right: &Pattern,
    refutation: &Refutation,
) -> Result<bool, AllocError>
    ensures { IfOk result (λ yes. IsTrue yes
        ↔ Refutes (bounds_of (patterns_view system.now)) (pattern_view left.now) (pattern_view right.now)
        (word_of refutation.now.word) (bound_view refutation.now.tree)) }
{
    derivable_laws();
    if !shows(alloc, system, &refutation.tree, left, &refutation.word)? {
        return Ok(false);
    }
    let inside = member(alloc, right, &refutation.word)?;
    Ok(!inside)
}
