// Closed forms of patterns in which values are put.
ghost use Rattle.std.specs.Prelude.{◌≡◌, option_map, IsTrue, IfOk, slice_get};
ghost use Rattle.pat_words_spec.specs.Patterns.{subst_of};
ghost use Rattle.pat_words_spec.specs.Tags.{tags_below};
ghost use Rattle.pat_inclusion_spec.specs.Counts.{most_tags};
ghost use Rattle.pat_semantics_spec.specs.WellFormed.{WellFormed};
ghost use Rattle.pat_inclusion_spec.specs.Values.{pattern_of, is_formed, values_fit};
ghost use Rattle.pat_inclusion_spec.specs.ClosedForms.{closed_form as closed_form_of};
ghost use Rattle.pat_derivation_spec.specs.Derivations.{scope_of};
ghost use Rattle.pat_linear.specs.Views.{sets_view};
ghost use Rattle.pat_patterns.specs.Views.{pattern_view};
ghost use Rattle.pat_core.specs.Views.{program_view};
ghost use Rattle.pat_certificate_values.specs.Views.{derivation_view};

use crate::forms::replacing::replaced;
use crate::tags_are_few;
use pat_core::Program;
use pat_derivations::Derivation;
use pat_linear::{FormError, LinearSet, closed_form};
use pat_patterns::Pattern;
use pat_sequences::Sequence;
use std::alloc::{AllocError, Global};

/// The closed form of the pattern, unless it is too large.
fn closed(alloc: Global, pattern: &Pattern) -> Result<Option<Sequence<LinearSet>>, AllocError>
    requires { IsTrue (tags_below most_tags (pattern_view pattern.now)) }
    ensures { IfOk result (λ o. option_map sets_view o ≡ closed_form_of most_tags (pattern_view pattern.now)) }
{
    match closed_form(alloc, pattern) {
        Ok(sets) => Ok(Some(sets)),
        Err(FormError::TooLarge) => Ok(None),
        Err(FormError::NoMemory) => Err(AllocError),
    }
}

/// The closed form of the pattern with its variables replaced by their values, unless it is too large. The pattern is one of the
/// interface, and the values are ones that their variables may have.
#[tactic(auto, using(crate::proofs::FormTags::none_in))]
pub fn form_of(
    alloc: Global,
    program: &Program,
    derivation: &Derivation,
    interface: u32,
    pattern: &Pattern,
) -> Result<Option<Sequence<LinearSet>>, AllocError>
    requires well { WellFormed (program_view program.now) }
    requires values { IsTrue (values_fit (scope_of (program_view program.now) (derivation_view derivation.now))) }
    requires formed { IsTrue (is_formed (scope_of (program_view program.now) (derivation_view derivation.now)) interface
        (pattern_view pattern.now)) }
    ensures { let s = scope_of (program_view program.now) (derivation_view derivation.now) in IfOk result
        (λ o. option_map sets_view o ≡ closed_form_of (s.tags interface) (subst_of (pattern_of s) (pattern_view pattern.now))) }
{
    tags_are_few(program, interface);
    match replaced(alloc, program, derivation, pattern)? {
        None => Ok(None),
        Some(built) => {
            let form = closed(alloc, &built.pattern)?;
            Ok(form)
        }
    }
}
