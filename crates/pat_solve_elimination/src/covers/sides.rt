// Closed forms of replaced sides.
ghost use Rattle.std.specs.Prelude.{◌≡◌, IfOk, IsTrue, option_map};
ghost use Rattle.pat_words_spec.specs.Patterns.{subst_of};
ghost use Rattle.pat_words_spec.specs.Tags.{tags_below};
ghost use Rattle.pat_patterns.specs.Views.{pattern_view};
ghost use Rattle.pat_inclusion_spec.specs.Counts.{most_tags};
ghost use Rattle.pat_inclusion_spec.specs.ClosedForms.{closed_form as closed_form_of};
ghost use Rattle.pat_linear.specs.Views.{sets_view};
ghost use Rattle.pat_solve_elimination.specs.assignment.Replacing.{replaced_by, IsReplacement};

use pat_linear::{FormError, LinearSet, closed_form};
use pat_patterns::Pattern;
use pat_sequences::Sequence;
use pat_solve_bounded::{Replacement, replaced};
use std::alloc::{AllocError, Global};

/// The closed form of a side with its variables replaced; `None` exactly where that is too large.
pub fn side_form(
    alloc: Global,
    side: &Pattern,
    by: &Replacement,
) -> Result<Option<Sequence<LinearSet>>, AllocError>
    requires by { IsReplacement by.now }
    requires tags { IsTrue (tags_below most_tags (subst_of (replaced_by by.now) (pattern_view side.now))) }
    ensures { IfOk result (λ form. option_map sets_view form
        ≡ closed_form_of most_tags (subst_of (replaced_by by.now) (pattern_view side.now))) }
{
    let made = replaced(alloc, side, by)?;
    match made {
        Some(part) => form_of(alloc, &part.as_measured().pattern),
        None => Ok(None),
    }
}

/// The closed form of a pattern; `None` exactly where it is too large.
fn form_of(alloc: Global, p: &Pattern) -> Result<Option<Sequence<LinearSet>>, AllocError>
    requires { IsTrue (tags_below most_tags (pattern_view p.now)) }
    ensures { IfOk result (λ form. option_map sets_view form ≡ closed_form_of most_tags (pattern_view p.now)) }
{
    match closed_form(alloc, p) {
        Ok(sets) => Ok(Some(sets)),
        Err(FormError::TooLarge) => Ok(None),
        Err(FormError::NoMemory) => Err(AllocError),
    }
}
