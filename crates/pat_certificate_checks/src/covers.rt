// Covers.
ghost use Rattle.std.specs.Prelude.{◌≡◌, IsTrue, IfOk};
ghost use Rattle.pat_words_spec.specs.Patterns.{subst_of};
ghost use Rattle.pat_semantics_spec.specs.WellFormed.{WellFormed};
ghost use Rattle.pat_inclusion_spec.specs.Values.{pattern_of, is_formed, values_fit};
ghost use Rattle.pat_inclusion_spec.specs.Certificates.{cover_shows as cover_shows_of};
ghost use Rattle.pat_derivation_spec.specs.Derivations.{scope_of};
ghost use Rattle.pat_cover_certificates.specs.Views.{entries_view};
ghost use Rattle.pat_patterns.specs.Views.{pattern_view};
ghost use Rattle.pat_core.specs.Views.{program_view};
ghost use Rattle.pat_derivations.specs.Views.{derivation_view};

use pat_certificate_values::{form_of, tags_are_few};
use pat_core::Program;
use pat_cover_certificates::{CoverEntry, check_cover};
use pat_derivations::Derivation;
use pat_patterns::Pattern;
use std::alloc::{AllocError, Global};

/// Whether the cover shows the inclusion, by the closed forms of both sides with all values put in.
#[tactic(auto, using(crate::proofs::CoverTags::cover_shown, crate::proofs::CoverTags::no_left_form, crate::proofs::CoverTags::no_right_form))]
pub fn cover_shows(
    alloc: Global,
    program: &Program,
    derivation: &Derivation,
    interface: u32,
    left: &Pattern,
    right: &Pattern,
    entries: &[CoverEntry],
) -> Result<bool, AllocError>
    requires well { WellFormed (program_view program.now) }
    requires values { IsTrue (values_fit (scope_of (program_view program.now) (derivation_view derivation.now))) }
    requires left { IsTrue (is_formed (scope_of (program_view program.now) (derivation_view derivation.now)) interface
        (pattern_view left.now)) }
    requires right { IsTrue (is_formed (scope_of (program_view program.now) (derivation_view derivation.now)) interface
        (pattern_view right.now)) }
    ensures { let s = scope_of (program_view program.now) (derivation_view derivation.now) in IfOk result
        (λ yes. yes
        ≡ cover_shows_of (s.tags interface) (entries_view entries.now) (subst_of (pattern_of s) (pattern_view left.now))
        (subst_of (pattern_of s) (pattern_view right.now))) }
{
    tags_are_few(program, interface);
    match form_of(alloc, program, derivation, interface, left)? {
        None => Ok(false),
        Some(lefts) => match form_of(alloc, program, derivation, interface, right)? {
            None => Ok(false),
            Some(rights) => Ok(check_cover(lefts.as_slice(), rights.as_slice(), entries)),
        },
    }
}
