// Bounds of grids.
ghost use Rattle.std.specs.Prelude.{◌≡◌, ◌&&◌, [], nat_eq, IsTrue, IfOk, OnOk};
ghost use Rattle.pat_words_spec.specs.Patterns.{pat_eq};
ghost use Rattle.pat_semantics_spec.specs.WellFormed.{WellFormed};
ghost use Rattle.pat_inclusion_spec.specs.Points.{grid_fits};
ghost use Rattle.pat_inclusion_spec.specs.Values.{Scope, is_formed, values_fit};
ghost use Rattle.pat_inclusion_spec.specs.Certificates.{grid_shows as grid_shows_of};
ghost use Rattle.pat_derivation_spec.specs.Derivations.{scope_of};
ghost use Rattle.pat_patterns.specs.Views.{pattern_view};
ghost use Rattle.pat_core.specs.Views.{program_view};
ghost use Rattle.pat_derivations.specs.Views.{derivation_view};
ghost use Rattle.pat_certificate_checks.specs.Notes.{IsNoted};
ghost use Rattle.pat_certificate_checks.specs.Numbering.{with_names};

use crate::numbering::{add_names, renumbered, right_of, values_of};
use pat_certificate_values::{same_pattern, tag_count, tags_are_few};
use pat_core::Program;
use pat_derivations::Derivation;
use pat_grid_certificates::{check_grid, is_grid};
use pat_patterns::Pattern;
use pat_sequences::Sequence;
use std::alloc::{AllocError, Global};

/// The variables of both patterns, each once.
fn names_of(alloc: Global, left: &Pattern, right: &Pattern) -> Result<Sequence<u32>, AllocError>
    ensures { IfOk result (λ names. names ≡ with_names (with_names [] (pattern_view left.now)) (pattern_view right.now)) }
{
    let mut names = Sequence::new(alloc);
    add_names(left, &mut names)?;
    add_names(right, &mut names)?;
    Ok(names)
}

/// So where the grid is worked with.
fn cuts_show(
    alloc: Global,
    program: &Program,
    derivation: &Derivation,
    interface: u32,
    left: &Pattern,
    right: &Pattern,
    k: u32,
    tags: u8,
) -> Result<bool, AllocError>
    requires tags { (scope_of (program_view program.now) (derivation_view derivation.now)).tags interface ≡ tags }
    requires fits { IsTrue (grid_fits k tags) }
    requires values { IsTrue (values_fit (scope_of (program_view program.now) (derivation_view derivation.now))) }
    requires left { IsTrue (is_formed (scope_of (program_view program.now) (derivation_view derivation.now)) interface
        (pattern_view left.now)) }
    requires right { IsTrue (is_formed (scope_of (program_view program.now) (derivation_view derivation.now)) interface
        (pattern_view right.now)) }
    ensures { let s = scope_of (program_view program.now) (derivation_view derivation.now) in
        IfOk result (λ shown. shown ≡ grid_shows_of s k (s.tags interface) (pattern_view left.now) (pattern_view right.now)) }
{
    let names = names_of(alloc, left, right)?;
    let all = names.as_slice();
    let numbered = renumbered(alloc, all, left)?;
    let other = right_of(all, right)?;
    let values = values_of(alloc, derivation.vars.as_slice(), all)?;
    let held = values.as_slice();
    let shown = check_grid(alloc, &numbered, &other, held, k, tags)?;
    Ok(shown)
}

/// Whether the bound shows the inclusion.
#[tactic(auto, using(crate::proofs::CutsShown::no_grid))]
pub fn grid_shows(
    alloc: Global,
    program: &Program,
    derivation: &Derivation,
    interface: u32,
    left: &Pattern,
    right: &Pattern,
    k: u32,
) -> Result<bool, AllocError>
    requires well { WellFormed (program_view program.now) }
    requires values { IsTrue (values_fit (scope_of (program_view program.now) (derivation_view derivation.now))) }
    requires left { IsTrue (is_formed (scope_of (program_view program.now) (derivation_view derivation.now)) interface
        (pattern_view left.now)) }
    requires right { IsTrue (is_formed (scope_of (program_view program.now) (derivation_view derivation.now)) interface
        (pattern_view right.now)) }
    ensures { let s = scope_of (program_view program.now) (derivation_view derivation.now) in IfOk result
        (λ yes. yes ≡ grid_shows_of s k (s.tags interface) (pattern_view left.now) (pattern_view right.now)) }
{
    tags_are_few(program, interface);
    let tags = tag_count(program, interface) as u8;
    if !is_grid(k, tags) {
        return Ok(false);
    }
    cuts_show(alloc, program, derivation, interface, left, right, k, tags)
}

/// An inclusion of patterns of the interface that is shown by the bound.
#[derive(Drop)]
pub struct GridNote {
    pub interface: u32,
    pub left: Pattern,
    pub right: Pattern,
    pub k: u32,
}

/// Whether the bound shows the inclusion, which then is noted in the place of the one before. What is noted isn't worked out again:
/// the clauses of a guard often ask for the same.
pub fn grid_shows_noted(
    alloc: Global,
    program: &Program,
    derivation: &Derivation,
    interface: u32,
    left: &Pattern,
    right: &Pattern,
    k: u32,
    noted: &mut Option<GridNote>,
) -> Result<bool, AllocError>
    requires well { WellFormed (program_view program.now) }
    requires values { IsTrue (values_fit (scope_of (program_view program.now) (derivation_view derivation.now))) }
    requires left { IsTrue (is_formed (scope_of (program_view program.now) (derivation_view derivation.now)) interface
        (pattern_view left.now)) }
    requires right { IsTrue (is_formed (scope_of (program_view program.now) (derivation_view derivation.now)) interface
        (pattern_view right.now)) }
    requires noted { IsNoted (scope_of (program_view program.now) (derivation_view derivation.now)) noted.old }
    ensures shown { let s = scope_of (program_view program.now) (derivation_view derivation.now) in IfOk result
        (λ yes. yes ≡ grid_shows_of s k (s.tags interface) (pattern_view left.now) (pattern_view right.now)) }
    ensures noted { OnOk result (IsNoted (scope_of (program_view program.now) (derivation_view derivation.now)) noted.new) }
{
    if is_noted(noted, interface, left, right, k) {
        return Ok(true);
    }
    if !grid_shows(alloc, program, derivation, interface, left, right, k)? {
        return Ok(false);
    }
    renew(noted, interface, left, right, k)?;
    Ok(true)
}

/// Notes the inclusion in the place of the one before.
#[tactic(auto, using(crate::proofs::Notes::new_note))]
fn renew(
    noted: &mut Option<GridNote>,
    interface: u32,
    left: &Pattern,
    right: &Pattern,
    k: u32,
) -> Result<(), AllocError>
    ensures { OnOk result ((s : Scope)
        → IsTrue (grid_shows_of s k (s.tags interface) (pattern_view left.now) (pattern_view right.now)) → IsNoted s noted.new) }
{
    let left = left.copy()?;
    let right = right.copy()?;
    *noted = Some(GridNote {
        interface,
        left,
        right,
        k,
    });
    Ok(())
}

/// Whether it is noted that the bound shows the inclusion.
#[tactic(auto, using(crate::proofs::Notes::noted_shows))]
fn is_noted(
    noted: &Option<GridNote>,
    interface: u32,
    left: &Pattern,
    right: &Pattern,
    k: u32,
) -> bool
    ensures { IsTrue result → (s : Scope) → IsNoted s noted.now
        → IsTrue (grid_shows_of s k (s.tags interface) (pattern_view left.now) (pattern_view right.now)) }
{
    match noted {
        None => false,
        Some(note) => is_same_note(note, interface, left, right, k),
    }
}

/// Whether the note is of this inclusion and this bound.
fn is_same_note(note: &GridNote, interface: u32, left: &Pattern, right: &Pattern, k: u32) -> bool
    ensures { result ≡ (nat_eq note.now.interface interface && (nat_eq note.now.k k
        && (pat_eq (pattern_view note.now.left) (pattern_view left.now)
        && pat_eq (pattern_view note.now.right) (pattern_view right.now)))) }
{
    note.interface == interface
        && (note.k == k && (same_pattern(&note.left, left) && same_pattern(&note.right, right)))
}
