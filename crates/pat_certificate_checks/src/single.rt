// One inclusion, with a certificate or without.
ghost use Rattle.std.specs.Prelude.{◌≡◌, option_map, option_copied, IsTrue, IfOk};
ghost use Rattle.pat_semantics_spec.specs.WellFormed.{WellFormed};
ghost use Rattle.pat_inclusion_spec.specs.Values.{is_formed, values_fit};
ghost use Rattle.pat_inclusion_spec.specs.Certificates.{shows};
ghost use Rattle.pat_derivation_spec.specs.Derivations.{scope_of};
ghost use Rattle.pat_patterns.specs.Views.{pattern_view, patterns_view};
ghost use Rattle.pat_core.specs.Views.{program_view};
ghost use Rattle.pat_derivations.specs.Views.{cert_view, derivation_view};
ghost use Rattle.pat_certificate_checks.specs.Plain.{all_plain};

use crate::showing::cert_shows;
use crate::trivial::is_trivial;
use pat_core::Program;
use pat_derivations::{Cert, Derivation};
use pat_patterns::Pattern;
use std::alloc::{AllocError, Global};

/// Whether the inclusion of patterns of the interface is trivial where there is no certificate, and otherwise isn't trivial and the
/// certificate shows it. The plain values are the derivation's.
pub fn included(
    alloc: Global,
    program: &Program,
    derivation: &Derivation,
    plain: &[Pattern],
    interface: u32,
    left: &Pattern,
    right: &Pattern,
    cert: Option<&Cert>,
) -> Result<bool, AllocError>
    requires well { WellFormed (program_view program.now) }
    requires values { IsTrue (values_fit (scope_of (program_view program.now) (derivation_view derivation.now))) }
    requires plain { patterns_view plain.now ≡ all_plain (derivation_view derivation.now).vars }
    requires left { IsTrue (is_formed (scope_of (program_view program.now) (derivation_view derivation.now)) interface
        (pattern_view left.now)) }
    requires right { IsTrue (is_formed (scope_of (program_view program.now) (derivation_view derivation.now)) interface
        (pattern_view right.now)) }
    ensures { IfOk result (λ yes. yes
        ≡ shows (scope_of (program_view program.now) (derivation_view derivation.now)) interface (pattern_view left.now)
        (pattern_view right.now) (option_map cert_view (option_copied cert.entry))) }
{
    let trivially = is_trivial(alloc, plain, left, right)?;
    match cert {
        None => Ok(trivially),
        Some(cert) => {
            if trivially {
                return Ok(false);
            }
            cert_shows(
                alloc, program, derivation, interface, left, right, cert, &mut None,
            )
        }
    }
}
