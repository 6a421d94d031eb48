// What stands behind a number, and patterns of an interface.
ghost use Rattle.std.specs.Prelude.{◌≡◌, ◌&&◌, ◌<◌, option_map, option_copied, slice_get};
ghost use Rattle.pat_words_spec.specs.Patterns.{pat_eq};
ghost use Rattle.pat_semantics_spec.specs.WellFormed.{WellFormed};
ghost use Rattle.pat_inclusion_spec.specs.Values.{var_at, has_interface as has_interface_of, is_formed as is_formed_of};
ghost use Rattle.pat_derivation_spec.specs.Derivations.{scope_of, tag_count as tag_count_of};
ghost use Rattle.pat_patterns.specs.Views.{pattern_view};
ghost use Rattle.pat_core.specs.Views.{program_view};
ghost use Rattle.pat_derivations.specs.Views.{var_view, vars_view, derivation_view};
ghost use Rattle.pat_certificate_values.specs.Symbols.{scope_with};

use crate::types::same_pattern;
use pat_core::Program;
use pat_derivations::{Derivation, VarValue};
use pat_patterns::Pattern;

/// How many tags an interface has: none where it isn't there.
#[tactic(auto, using(crate::proofs::LookUps::count_is))]
pub fn tag_count(program: &Program, interface: u32) -> usize
    ensures { result ≡ tag_count_of (slice_get (program_view program.now).interfaces interface) }
{
    match program.interfaces.as_slice().get(interface as usize) {
        None => 0,
        Some(declared) => declared.tags.len(),
    }
}

/// An interface has 32 tags at most.
#[tactic(auto, using(crate::proofs::LookUps::few_tags))]
pub fn tags_are_few(program: &Program, interface: u32)
    requires { WellFormed (program_view program.now) }
    ensures { tag_count_of (slice_get (program_view program.now).interfaces interface) < 33 }
{}

/// The variable at a place, if it is there.
#[tactic(auto, using(crate::proofs::LookUps::place_get))]
fn var_at_place(vars: &[(u32, VarValue)], place: usize) -> Option<&(u32, VarValue)>
    ensures { option_map var_view (option_copied result) ≡ slice_get (vars_view vars.now) place }
{
    vars.get(place)
}

/// The variable with this number, if it is there. They are numbered from 1.
#[tactic(auto, using(crate::proofs::LookUps::var_before))]
pub fn var_of(vars: &[(u32, VarValue)], number: u32) -> Option<&(u32, VarValue)>
    ensures { option_map var_view (option_copied result) ≡ var_at (vars_view vars.now) number }
{
    if number == 0 {
        return None;
    }
    var_at_place(vars, number as usize - 1)
}

/// Whether the variable is there and has this interface.
fn has_interface(vars: &[(u32, VarValue)], interface: u32, number: u32) -> bool
    ensures { result ≡ has_interface_of interface (var_at (vars_view vars.now) number) }
{
    match var_of(vars, number) {
        None => false,
        Some((own, _)) => *own == interface,
    }
}

/// Whether the pattern is one of the interface: its tags are, and its variables, each of which has a value. Many are 1, and nothing
/// is looked up for these.
#[tactic(auto, using(crate::proofs::Symbols::formed_with))]
pub fn is_formed(
    program: &Program,
    derivation: &Derivation,
    interface: u32,
    pattern: &Pattern,
) -> bool
    ensures { result
        ≡ is_formed_of (scope_of (program_view program.now) (derivation_view derivation.now)) interface (pattern_view pattern.now) }
{
    match pattern {
        Pattern::One => true,
        _ => {
            let tags = tag_count(program, interface);
            is_formed_with(tags, derivation.vars.as_slice(), interface, pattern)
        }
    }
}

/// So where the interface has so many tags. Left parts are mostly tags, which need no call.
fn is_formed_with(tags: usize, vars: &[(u32, VarValue)], interface: u32, pattern: &Pattern) -> bool
    ensures { result ≡ is_formed_of (scope_with tags (vars_view vars.now)) interface (pattern_view pattern.now) }
{
    match pattern {
        Pattern::Zero | Pattern::One => true,
        Pattern::Tag(tag) => (*tag as usize) < tags,
        Pattern::Var(number) => has_interface(vars, interface, *number),
        Pattern::Sum(left, right) | Pattern::Prod(left, right) => match &**left {
            Pattern::Tag(tag) => {
                (*tag as usize) < tags && is_formed_with(tags, vars, interface, right)
            }
            _ => {
                is_formed_with(tags, vars, interface, left)
                    && is_formed_with(tags, vars, interface, right)
            }
        },
        Pattern::Star(part) => is_formed_with(tags, vars, interface, part),
    }
}

/// Whether the patterns are the same, as they are written, and are ones of the interface.
#[tactic(auto, using(crate::proofs::Symbols::formed_with))]
pub fn are_same_and_formed(
    program: &Program,
    derivation: &Derivation,
    interface: u32,
    left: &Pattern,
    right: &Pattern,
) -> bool
    ensures { result ≡ (pat_eq (pattern_view left.now) (pattern_view right.now)
        && is_formed_of (scope_of (program_view program.now) (derivation_view derivation.now)) interface (pattern_view left.now)) }
{
    let tags = tag_count(program, interface);
    are_same_with(tags, derivation.vars.as_slice(), interface, left, right)
}

/// So where the interface has so many tags.
#[tactic(auto, using(crate::proofs::Pairs::in_pairs))]
fn are_same_with(
    tags: usize,
    vars: &[(u32, VarValue)],
    interface: u32,
    left: &Pattern,
    right: &Pattern,
) -> bool
    ensures { result ≡ (pat_eq (pattern_view left.now) (pattern_view right.now)
        && is_formed_of (scope_with tags (vars_view vars.now)) interface (pattern_view left.now)) }
{
    match (left, right) {
        (Pattern::Prod(first, second), Pattern::Prod(other_first, other_second)) => {
            match (&**first, &**other_first) {
                (Pattern::Tag(tag), Pattern::Tag(other)) => {
                    tag == other
                        && (*tag as usize) < tags
                        && are_same_with(tags, vars, interface, second, other_second)
                }
                _ => {
                    are_same_with(tags, vars, interface, first, other_first)
                        && are_same_with(tags, vars, interface, second, other_second)
                }
            }
        }
        _ => same_pattern(left, right) && is_formed_with(tags, vars, interface, left),
    }
}
