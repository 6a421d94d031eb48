// Inclusions that are shown in turn.
ghost use Rattle.std.specs.Prelude.{◌≡◌, [], ◌∷◌, Some, drop, option_map, option_copied, IsTrue, IfOk, OnOk};
ghost use Rattle.std.specs.List.{flat_map};
ghost use Rattle.pat_semantics_spec.specs.WellFormed.{WellFormed};
ghost use Rattle.pat_inclusion_spec.specs.Values.{is_formed as is_formed_of, values_fit};
ghost use Rattle.pat_inclusion_spec.specs.Certificates.{cert_shows as cert_shows_of, are_shown as are_shown_of};
ghost use Rattle.pat_derivation_spec.specs.Derivations.{scope_of};
ghost use Rattle.pat_derivation_spec.specs.Demands.{inclusions_of};
ghost use Rattle.pat_patterns.specs.Views.{pattern_view, patterns_view};
ghost use Rattle.pat_core.specs.Views.{program_view};
ghost use Rattle.pat_derivations.specs.Views.{cert_view, certs_view, derivation_view};
ghost use Rattle.pat_obligations.specs.Views.{demand_view, demands_view};
ghost use Rattle.pat_certificate_checks.specs.Notes.{IsNoted};
ghost use Rattle.pat_certificate_checks.specs.Plain.{all_plain};
ghost use Rattle.pat_certificate_checks.specs.Views.{side_view, reflexive_view};
ghost use Rattle.pat_certificate_checks.specs.Shown.{Takes, Leaves};

use crate::covers::cover_shows;
use crate::grids::{GridNote, grid_shows_noted};
use crate::inclusions::{Inclusion, Reflexive, inclusion_of, reflexive_of};
use crate::trivial::is_trivial;
use pat_certificate_values::{are_same_and_formed, is_formed};
use pat_core::Program;
use pat_derivations::{Cert, Derivation};
use pat_obligations::Demand;
use pat_patterns::Pattern;
use pat_sequences::let_go;
use std::alloc::{AllocError, Global};

/// Whether the certificate shows the inclusion of patterns of the interface.
pub fn cert_shows(
    alloc: Global,
    program: &Program,
    derivation: &Derivation,
    interface: u32,
    left: &Pattern,
    right: &Pattern,
    cert: &Cert,
    noted: &mut Option<GridNote>,
) -> Result<bool, AllocError>
    requires well { WellFormed (program_view program.now) }
    requires values { IsTrue (values_fit (scope_of (program_view program.now) (derivation_view derivation.now))) }
    requires left { IsTrue (is_formed_of (scope_of (program_view program.now) (derivation_view derivation.now)) interface
        (pattern_view left.now)) }
    requires right { IsTrue (is_formed_of (scope_of (program_view program.now) (derivation_view derivation.now)) interface
        (pattern_view right.now)) }
    requires noted { IsNoted (scope_of (program_view program.now) (derivation_view derivation.now)) noted.old }
    ensures shown { IfOk result (λ yes. yes
        ≡ cert_shows_of (scope_of (program_view program.now) (derivation_view derivation.now)) interface (pattern_view left.now)
        (pattern_view right.now) (cert_view cert.now)) }
    ensures noted { OnOk result (IsNoted (scope_of (program_view program.now) (derivation_view derivation.now)) noted.new) }
{
    match cert {
        Cert::Cover(entries) => cover_shows(
            alloc,
            program,
            derivation,
            interface,
            left,
            right,
            entries.as_slice(),
        ),
        Cert::Grid(k) => grid_shows_noted(
            alloc, program, derivation, interface, left, right, *k, noted,
        ),
    }
}

/// How an inclusion is shown, or that it is not.
#[derive(Clone, Copy, Debug, PartialEq, Eq)]
pub enum Showing {
    /// It is not.
    NotShown,
    /// It is trivial.
    Trivially,
    /// The next certificate shows it.
    ByNext,
}

/// How the inclusion of patterns of the interface is shown, where these certificates are left.
#[tactic(auto, using(crate::proofs::Taken::trivially, crate::proofs::Taken::no_more, crate::proofs::Taken::by_next, crate::proofs::Taken::next_fails))]
fn shown_in(
    alloc: Global,
    program: &Program,
    derivation: &Derivation,
    plain: &[Pattern],
    interface: u32,
    left: &Pattern,
    right: &Pattern,
    certs: &[Cert],
    noted: &mut Option<GridNote>,
) -> Result<Showing, AllocError>
    requires well { WellFormed (program_view program.now) }
    requires values { IsTrue (values_fit (scope_of (program_view program.now) (derivation_view derivation.now))) }
    requires plain { patterns_view plain.now ≡ all_plain (derivation_view derivation.now).vars }
    requires left { IsTrue (is_formed_of (scope_of (program_view program.now) (derivation_view derivation.now)) interface
        (pattern_view left.now)) }
    requires right { IsTrue (is_formed_of (scope_of (program_view program.now) (derivation_view derivation.now)) interface
        (pattern_view right.now)) }
    requires noted { IsNoted (scope_of (program_view program.now) (derivation_view derivation.now)) noted.old }
    ensures taken { IfOk result (Takes (scope_of (program_view program.now) (derivation_view derivation.now)) (Some interface)
        (pattern_view left.now) (pattern_view right.now) (certs_view certs.now)) }
    ensures noted { OnOk result (IsNoted (scope_of (program_view program.now) (derivation_view derivation.now)) noted.new) }
{
    if is_trivial(alloc, plain, left, right)? {
        return Ok(Showing::Trivially);
    }
    match certs.first() {
        None => Ok(Showing::NotShown),
        Some(cert) => {
            if cert_shows(
                alloc, program, derivation, interface, left, right, cert, noted,
            )? {
                Ok(Showing::ByNext)
            } else {
                Ok(Showing::NotShown)
            }
        }
    }
}

/// How the inclusion is shown, where these certificates are left.
#[tactic(auto, using(crate::proofs::Taken::no_interface, crate::proofs::Taken::same_trivially, crate::proofs::Taken::not_formed))]
fn shown(
    alloc: Global,
    program: &Program,
    derivation: &Derivation,
    plain: &[Pattern],
    needed: &Inclusion,
    certs: &[Cert],
    noted: &mut Option<GridNote>,
) -> Result<Showing, AllocError>
    requires well { WellFormed (program_view program.now) }
    requires values { IsTrue (values_fit (scope_of (program_view program.now) (derivation_view derivation.now))) }
    requires plain { patterns_view plain.now ≡ all_plain (derivation_view derivation.now).vars }
    requires noted { IsNoted (scope_of (program_view program.now) (derivation_view derivation.now)) noted.old }
    ensures taken { IfOk result (Takes (scope_of (program_view program.now) (derivation_view derivation.now)) needed.now.interface
        (side_view needed.now.left) (pattern_view needed.now.right.now) (certs_view certs.now)) }
    ensures noted { OnOk result (IsNoted (scope_of (program_view program.now) (derivation_view derivation.now)) noted.new) }
{
    match needed.interface {
        None => Ok(Showing::NotShown),
        Some(interface) => {
            let left = needed.left.as_pattern();
            let right = needed.right;
            if are_same_and_formed(program, derivation, interface, left, right) {
                return Ok(Showing::Trivially);
            }
            if !is_formed(program, derivation, interface, left)
                || !is_formed(program, derivation, interface, right)
            {
                return Ok(Showing::NotShown);
            }
            shown_in(
                alloc, program, derivation, plain, interface, left, right, certs, noted,
            )
        }
    }
}

/// The certificates that are left once the demand's inclusion, if it needs one, is shown; nothing where it isn't shown.
#[inline(never)]
#[tactic(auto, using(crate::proofs::Taken::leaves_all, crate::proofs::Taken::leaves_by, crate::proofs::Taken::leaves_rest))]
fn after_inclusion<'a>(
    alloc: Global,
    program: &Program,
    derivation: &Derivation,
    plain: &[Pattern],
    demand: &Demand,
    certs: &'a [Cert],
    noted: &mut Option<GridNote>,
) -> Result<Option<&'a [Cert]>, AllocError>
    requires well { WellFormed (program_view program.now) }
    requires values { IsTrue (values_fit (scope_of (program_view program.now) (derivation_view derivation.now))) }
    requires plain { patterns_view plain.now ≡ all_plain (derivation_view derivation.now).vars }
    requires noted { IsNoted (scope_of (program_view program.now) (derivation_view derivation.now)) noted.old }
    ensures left { IfOk result (λ o. Leaves (scope_of (program_view program.now) (derivation_view derivation.now))
        (inclusions_of (demand_view demand.now)) (certs_view certs.now) (option_map certs_view (option_copied o))) }
    ensures noted { OnOk result (IsNoted (scope_of (program_view program.now) (derivation_view derivation.now)) noted.new) }
{
    match inclusion_of(alloc, demand)? {
        None => Ok(Some(certs)),
        Some(needed) => match shown(alloc, program, derivation, plain, &needed, certs, noted)? {
            Showing::NotShown => Ok(None),
            Showing::Trivially => Ok(Some(certs)),
            Showing::ByNext => Ok(Some(but_first(certs))),
        },
    }
}

/// So where the inclusion is one of a pattern in itself, which is trivial.
#[inline(always)]
#[tactic(auto, using(crate::proofs::Taken::leaves_reflexive, crate::proofs::Taken::not_reflexive))]
fn after_reflexive<'a>(
    program: &Program,
    derivation: &Derivation,
    needed: Reflexive,
    certs: &'a [Cert],
) -> Option<&'a [Cert]>
    ensures { Leaves (scope_of (program_view program.now) (derivation_view derivation.now)) (reflexive_view needed.entry ∷ [])
        (certs_view certs.now) (option_map certs_view (option_copied result)) }
{
    if is_formed(program, derivation, needed.interface, needed.pattern) {
        Some(certs)
    } else {
        None
    }
}

/// The certificates that are left once the demand's inclusion, if it needs one, is shown; nothing where it isn't shown.
#[inline(always)]
fn after<'a>(
    alloc: Global,
    program: &Program,
    derivation: &Derivation,
    plain: &[Pattern],
    demand: &Demand,
    certs: &'a [Cert],
    noted: &mut Option<GridNote>,
) -> Result<Option<&'a [Cert]>, AllocError>
    requires well { WellFormed (program_view program.now) }
    requires values { IsTrue (values_fit (scope_of (program_view program.now) (derivation_view derivation.now))) }
    requires plain { patterns_view plain.now ≡ all_plain (derivation_view derivation.now).vars }
    requires noted { IsNoted (scope_of (program_view program.now) (derivation_view derivation.now)) noted.old }
    ensures left { IfOk result (λ o. Leaves (scope_of (program_view program.now) (derivation_view derivation.now))
        (inclusions_of (demand_view demand.now)) (certs_view certs.now) (option_map certs_view (option_copied o))) }
    ensures noted { OnOk result (IsNoted (scope_of (program_view program.now) (derivation_view derivation.now)) noted.new) }
{
    match reflexive_of(demand) {
        Some(needed) => Ok(after_reflexive(program, derivation, needed, certs)),
        None => after_inclusion(alloc, program, derivation, plain, demand, certs, noted),
    }
}

fn but_first(certs: &[Cert]) -> &[Cert]
    ensures { result.now ≡ drop 1 certs.now }
{
    match certs.split_first() {
        None => certs,
        Some((_, rest)) => rest,
    }
}

/// Whether the inclusions that the demands need are shown in turn, each that is not trivial by the next certificate, and none is
/// left over. The plain values are those of the derivation, and its values are ones that their variables may have.
pub fn are_shown(
    alloc: Global,
    program: &Program,
    derivation: &Derivation,
    plain: &[Pattern],
    demands: &[Demand],
    certs: &[Cert],
) -> Result<bool, AllocError>
    requires well { WellFormed (program_view program.now) }
    requires values { IsTrue (values_fit (scope_of (program_view program.now) (derivation_view derivation.now))) }
    requires plain { patterns_view plain.now ≡ all_plain (derivation_view derivation.now).vars }
    ensures { IfOk result (λ yes. yes
        ≡ are_shown_of (scope_of (program_view program.now) (derivation_view derivation.now))
        (flat_map inclusions_of (demands_view demands.now)) (certs_view certs.now)) }
{
    let mut noted = None;
    let shown = all_shown(
        alloc, program, derivation, plain, demands, certs, &mut noted,
    );
    let_go(noted);
    shown
}

/// So with what is noted.
#[tactic(auto, using(crate::proofs::Taken::none_left))]
fn all_shown(
    alloc: Global,
    program: &Program,
    derivation: &Derivation,
    plain: &[Pattern],
    demands: &[Demand],
    certs: &[Cert],
    noted: &mut Option<GridNote>,
) -> Result<bool, AllocError>
    requires well { WellFormed (program_view program.now) }
    requires values { IsTrue (values_fit (scope_of (program_view program.now) (derivation_view derivation.now))) }
    requires plain { patterns_view plain.now ≡ all_plain (derivation_view derivation.now).vars }
    requires noted { IsNoted (scope_of (program_view program.now) (derivation_view derivation.now)) noted.old }
    ensures { IfOk result (λ yes. yes
        ≡ are_shown_of (scope_of (program_view program.now) (derivation_view derivation.now))
        (flat_map inclusions_of (demands_view demands.now)) (certs_view certs.now)) }
{
    let mut rest = certs;
    for demand in demands {
        match after(alloc, program, derivation, plain, demand, rest, noted)? {
            None => return Ok(false),
            Some(more) => rest = more,
        }
    }
    Ok(rest.is_empty())
}
