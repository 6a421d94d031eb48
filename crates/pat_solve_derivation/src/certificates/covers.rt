// Covers of inclusions.
ghost use Rattle.std.specs.Prelude.{◌≡◌, ◌<◌, ◌^◌, true, length, IsTrue, IfOk, OnOk};
ghost use Rattle.pat_words_spec.specs.Patterns.{subst_of};
ghost use Rattle.pat_inclusion_spec.specs.Values.{pattern_of, is_formed};
ghost use Rattle.pat_inclusion_spec.specs.Counts.{most_tags};
ghost use Rattle.pat_inclusion_spec.specs.Covers.{is_cover, IsDirectlyCovered};
ghost use Rattle.pat_inclusion_spec.specs.Certificates.{cover_shows};
ghost use Rattle.pat_linear.specs.Views.{sets_view};
ghost use Rattle.pat_cover_certificates.specs.Views.{entries_view};
ghost use Rattle.pat_patterns.specs.Views.{pattern_view};
ghost use Rattle.pat_solve_spec.specs.Derived.{IsCovered};
ghost use Rattle.pat_solve_derivation.specs.certificates.ClosedValues.{AreClosed};
ghost use Rattle.pat_solve_derivation.specs.certificates.Making.{scope_in, IsSolved};

use crate::certificates::closed::keep_form;
use crate::certificates::context::Solved;
use crate::certificates::sides::side_form;
use pat_certificate_values::tags_are_few;
use pat_cover_certificates::{CoverEntry, find_cover};
use pat_linear::LinearSet;
use pat_patterns::Pattern;
use pat_sequences::Sequence;
use std::alloc::{AllocError, Global};

/// A cover of the left sets, which are directly covered by the right ones.
fn cover_of(
    alloc: Global,
    left: &[LinearSet],
    right: &[LinearSet],
) -> Result<Sequence<CoverEntry>, AllocError>
    requires few { length right.now < 2 ^ 32 }
    requires covered { IsDirectlyCovered (sets_view left.now) (sets_view right.now) }
    ensures { IfOk result (λ cover. is_cover most_tags (sets_view left.now) (sets_view right.now) (entries_view cover) ≡ true) }
{
    match find_cover(alloc, left, right)? {
        Some(cover) => Ok(cover),
        // They are covered.
        None => unreachable!(),
    }
}

/// A cover of the left side by the right one, which covers it. Both are patterns of the interface.
pub fn cover_between(
    alloc: Global,
    solved: &Solved,
    closed: &mut Sequence<Option<Sequence<LinearSet>>>,
    interface: u32,
    left: &Pattern,
    right: &Pattern,
) -> Result<Sequence<CoverEntry>, AllocError>
    requires solved { IsSolved solved.now }
    requires closed { AreClosed (scope_in solved.now) closed.old }
    requires left { IsTrue (is_formed (scope_in solved.now) interface (pattern_view left.now)) }
    requires right { IsTrue (is_formed (scope_in solved.now) interface (pattern_view right.now)) }
    requires covered { IsCovered ((scope_in solved.now).tags interface)
        (subst_of (pattern_of (scope_in solved.now)) (pattern_view left.now))
        (subst_of (pattern_of (scope_in solved.now)) (pattern_view right.now)) }
    ensures cover { IfOk result (λ cover. IsTrue (cover_shows ((scope_in solved.now).tags interface) (entries_view cover)
        (subst_of (pattern_of (scope_in solved.now)) (pattern_view left.now))
        (subst_of (pattern_of (scope_in solved.now)) (pattern_view right.now)))) }
    ensures closed { OnOk result (AreClosed (scope_in solved.now) closed.new) }
{
    tags_are_few(solved.program, interface);
    keep_form(alloc, solved, closed, left)?;
    keep_form(alloc, solved, closed, right)?;
    let kept = closed.as_slice();
    let left = side_form(alloc, solved, kept, interface, left)?;
    let right = side_form(alloc, solved, kept, interface, right)?;
    let cover = cover_of(alloc, left.as_slice(), right.as_slice())?;
    Ok(cover)
}
