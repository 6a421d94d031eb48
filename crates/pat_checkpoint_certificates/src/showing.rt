// Certificates of single inclusions.
ghost use Rattle.std.specs.Prelude.{◌≡◌, Some, None, option_map, IsTrue, IfOk, IfSome, IfNone};
ghost use Rattle.pat_words_spec.specs.Patterns.{subst_of};
ghost use Rattle.pat_inclusion_spec.specs.Values.{pattern_of, is_formed};
ghost use Rattle.pat_inclusion_spec.specs.Covers.{CoverEntry as GhostEntry};
ghost use Rattle.pat_inclusion_spec.specs.Certificates.{is_trivial as is_trivial_by, cover_shows, grid_shows};
ghost use Rattle.std.specs.Prelude.{List, ℕ, IsFalse};
ghost use Rattle.pat_derivation_spec.specs.Demands.{inclusion};
ghost use Rattle.pat_cover_certificates.specs.Views.{entries_view};
ghost use Rattle.pat_patterns.specs.Views.{pattern_view};
ghost use Rattle.pat_checkpoint_spec.specs.Written.{IsFormedNeed};
ghost use Rattle.pat_checkpoint_certificates.specs.Bounds.{listed_at};
ghost use Rattle.pat_checkpoint_certificates.specs.Needs.{need_view};
ghost use Rattle.pat_checkpoint_certificates.specs.Searches.{scope_in, bounds_in, IsSearch};
ghost use Rattle.pat_checkpoint_certificates.specs.Found.{IsFound, IsCover, IsGrid};

use crate::search::Search;
use pat_certificate_checks::{form_of, included, is_trivial};
use pat_certificate_values::tags_are_few;
use pat_cover_certificates::{CoverEntry, find_cover};
use pat_derivations::Cert;
use pat_patterns::Pattern;
use pat_sequences::Sequence;
use std::alloc::{AllocError, Global};

/// The number at the place, if there is one.
pub fn number_at(numbers: &[Option<u32>], place: u32) -> Option<u32>
    ensures { result ≡ listed_at numbers.now place }
{
    match numbers.get(place as usize) {
        None => None,
        Some(number) => *number,
    }
}

/// A direct cover of the left side by the right one, both patterns of the interface; none where there is none, or a closed form is
/// too large.
fn cover_between(
    alloc: Global,
    search: &Search,
    interface: u32,
    left: &Pattern,
    right: &Pattern,
) -> Result<Option<Sequence<CoverEntry>>, AllocError>
    requires search { IsSearch search.now }
    requires left { IsTrue (is_formed (scope_in search.now) interface (pattern_view left.now)) }
    requires right { IsTrue (is_formed (scope_in search.now) interface (pattern_view right.now)) }
    ensures { let s = scope_in search.now in
        IfOk result (IsCover (s.tags interface) (subst_of (pattern_of s) (pattern_view left.now))
        (subst_of (pattern_of s) (pattern_view right.now))) }
{
    tags_are_few(search.program, interface);
    let Some(lefts) = form_of(alloc, search.program, search.derivation, interface, left)? else {
        return Ok(None);
    };
    let Some(rights) = form_of(alloc, search.program, search.derivation, interface, right)? else {
        return Ok(None);
    };
    find_cover(alloc, lefts.as_slice(), rights.as_slice())
}

/// The grid with the bound of the interface, where it shows the inclusion of patterns of the interface, which isn't trivial.
fn grid_between(
    alloc: Global,
    search: &Search,
    interface: u32,
    left: &Pattern,
    right: &Pattern,
) -> Result<Option<Cert>, AllocError>
    requires search { IsSearch search.now }
    requires left { IsTrue (is_formed (scope_in search.now) interface (pattern_view left.now)) }
    requires right { IsTrue (is_formed (scope_in search.now) interface (pattern_view right.now)) }
    requires other { IsFalse (is_trivial_by (scope_in search.now) (pattern_view left.now) (pattern_view right.now)) }
    ensures { IfOk result (IsGrid (scope_in search.now) (bounds_in search.now) interface (pattern_view left.now) (pattern_view right.now)) }
{
    let Some(k) = number_at(search.bounds, interface) else {
        return Ok(None);
    };
    let cert = Cert::Grid(k);
    let shown = included(
        alloc,
        search.program,
        search.derivation,
        search.plain,
        interface,
        left,
        right,
        Some(&cert),
    )?;
    Ok(if shown { Some(cert) } else { None })
}

/// How the inclusion of patterns of the interface is shown: without a certificate where it is trivial, by a direct cover, or by a grid;
/// none where it can't be shown.
pub fn show_one(
    alloc: Global,
    search: &Search,
    interface: u32,
    left: &Pattern,
    right: &Pattern,
) -> Result<Option<Option<Cert>>, AllocError>
    requires search { IsSearch search.now }
    requires left { IsTrue (is_formed (scope_in search.now) interface (pattern_view left.now)) }
    requires right { IsTrue (is_formed (scope_in search.now) interface (pattern_view right.now)) }
    ensures { IfOk result (IsFound (scope_in search.now) (bounds_in search.now)
        (Some (inclusion (Some interface) (pattern_view left.now) (pattern_view right.now)))) }
{
    if is_trivial(alloc, search.plain, left, right)? {
        return Ok(Some(None));
    }
    if let Some(cover) = cover_between(alloc, search, interface, left, right)? {
        return Ok(Some(Some(Cert::Cover(cover))));
    }
    match grid_between(alloc, search, interface, left, right)? {
        None => Ok(None),
        Some(cert) => Ok(Some(Some(cert))),
    }
}

/// An inclusion that is needed: the interface of its patterns, if it is one, and the patterns.
#[derive(Clone, Copy)]
pub struct Need<'a> {
    pub interface: Option<u32>,
    pub left: &'a Pattern,
    pub right: &'a Pattern,
}

/// How what a line needs is shown: without a certificate where it needs nothing, or something trivial; none where it can't be shown.
pub fn show_need(
    alloc: Global,
    search: &Search,
    need: &Option<Need>,
) -> Result<Option<Option<Cert>>, AllocError>
    requires search { IsSearch search.now }
    requires formed { IsFormedNeed (scope_in search.now) (option_map need_view need.now) }
    ensures { IfOk result (IsFound (scope_in search.now) (bounds_in search.now) (option_map need_view need.now)) }
{
    match need {
        None => Ok(Some(None)),
        Some(needed) => show_inclusion(alloc, search, needed),
    }
}

/// How the inclusion is shown.
fn show_inclusion(
    alloc: Global,
    search: &Search,
    needed: &Need,
) -> Result<Option<Option<Cert>>, AllocError>
    requires search { IsSearch search.now }
    requires formed { IsFormedNeed (scope_in search.now) (Some (need_view needed.now)) }
    ensures { IfOk result (IsFound (scope_in search.now) (bounds_in search.now) (Some (need_view needed.now))) }
{
    match needed.interface {
        // Its patterns are of an interface.
        None => unreachable!(),
        Some(interface) => show_one(alloc, search, interface, needed.left, needed.right),
    }
}
