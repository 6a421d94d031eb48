// Words of patterns, by tests of the values of their variables: nothing is replaced.
ghost use Rattle.std.specs.Prelude.{◌≡◌, map, IsTrue, IfOk};
ghost use Rattle.std.specs.List.{list_any};
ghost use Rattle.pat_words_spec.specs.Words.{no_word};
ghost use Rattle.pat_words_spec.specs.Patterns.{is_nullable, is_inhabited, subst_of};
ghost use Rattle.pat_inclusion_spec.specs.Counts.{counted, same_below};
ghost use Rattle.pat_inclusion_spec.specs.Values.{Scope, pattern_of, value_pattern, value_fits, values_fit};
ghost use Rattle.pat_inclusion_spec.specs.Under.{nullable_under, inhabited_under};
ghost use Rattle.pat_derivation_spec.specs.Derivations.{scope_of};
ghost use Rattle.pat_patterns.specs.Views.{pattern_view};
ghost use Rattle.pat_core.specs.Views.{program_view};
ghost use Rattle.pat_derivations.specs.Views.{counts_of, value_view, derivation_view};
ghost use Rattle.pat_certificate_values.specs.Tested.{flag_at, IsTested};

use crate::looking::tag_count;
use pat_bags::{Bag, TAGS};
use pat_core::Program;
use pat_derivations::{Derivation, VarValue};
use pat_patterns::{Pattern, nullable};
use pat_sequences::Sequence;
use std::alloc::{AllocError, Global};

/// For each variable whether its value has the empty word, and whether it has a word.
#[derive(Drop)]
pub struct Tests {
    pub nullable: Sequence<bool>,
    pub inhabited: Sequence<bool>,
}

fn count_of(point: &Bag, tag: usize) -> u32
    ensures { result ≡ counted point.now.counts tag }
{
    if tag < TAGS { point.counts[tag] } else { 0 }
}

/// Whether the point has none of the first tags.
fn is_empty_point(tags: usize, point: &Bag) -> bool
    ensures { result ≡ same_below tags no_word (counted point.now.counts) }
{
    let mut left = tags;
    while left > 0 {
        left -= 1;
        if 0 != count_of(point, left) {
            return false;
        }
    }
    true
}

fn has_empty_point(tags: usize, points: &[Bag]) -> bool
    ensures { result ≡ list_any (λ p. same_below tags no_word (counted p)) (map counts_of points.now) }
{
    for point in points {
        if is_empty_point(tags, point) {
            return true;
        }
    }
    false
}

#[tactic(auto, using(crate::proofs::Grids::grid_nullable))]
fn value_nullable(tags: usize, value: &VarValue) -> bool
    requires { IsTrue (value_fits tags (value_view value.now)) }
    ensures { result ≡ is_nullable (value_pattern tags (value_view value.now)) }
{
    match value {
        VarValue::Pattern(pattern) => nullable(pattern),
        VarValue::Grid { k: _, points } => has_empty_point(tags, points.as_slice()),
    }
}

#[tactic(auto, using(crate::proofs::Grids::grid_inhabited, crate::proofs::Flags::unflagged))]
fn value_inhabited(tags: usize, value: &VarValue) -> bool
    requires { IsTrue (value_fits tags (value_view value.now)) }
    ensures { result ≡ is_inhabited (value_pattern tags (value_view value.now)) }
{
    let _ = tags;
    match value {
        VarValue::Pattern(pattern) => inhabited_by(&[], pattern),
        VarValue::Grid { k: _, points } => !points.is_empty(),
    }
}

/// The tests of all values, which are ones that their variables may have.
pub fn tests_of(
    alloc: Global,
    program: &Program,
    derivation: &Derivation,
) -> Result<Tests, AllocError>
    requires { IsTrue (values_fit (scope_of (program_view program.now) (derivation_view derivation.now))) }
    ensures { IfOk result (IsTested (scope_of (program_view program.now) (derivation_view derivation.now))) }
{
    let mut tests = Tests {
        nullable: Sequence::new(alloc),
        inhabited: Sequence::new(alloc),
    };
    for (interface, value) in derivation.vars.as_slice() {
        let tags = tag_count(program, *interface);
        let has_none = value_nullable(tags, value);
        let has_some = value_inhabited(tags, value);
        tests.nullable.push(has_none)?;
        tests.inhabited.push(has_some)?;
    }
    Ok(tests)
}

fn flag(flags: &[bool], number: u32) -> bool
    ensures { result ≡ flag_at flags.now number }
{
    if number == 0 {
        return false;
    }
    match flags.get(number as usize - 1) {
        None => false,
        Some(own) => *own,
    }
}

fn nullable_by(flags: &[bool], pattern: &Pattern) -> bool
    ensures { result ≡ nullable_under (flag_at flags.now) (pattern_view pattern.now) }
{
    match pattern {
        Pattern::Zero | Pattern::Tag(_) => false,
        Pattern::One | Pattern::Star(_) => true,
        Pattern::Var(number) => flag(flags, *number),
        Pattern::Sum(left, right) => nullable_by(flags, left) || nullable_by(flags, right),
        Pattern::Prod(left, right) => nullable_by(flags, left) && nullable_by(flags, right),
    }
}

fn inhabited_by(flags: &[bool], pattern: &Pattern) -> bool
    ensures { result ≡ inhabited_under (flag_at flags.now) (pattern_view pattern.now) }
{
    match pattern {
        Pattern::Zero => false,
        Pattern::One | Pattern::Tag(_) | Pattern::Star(_) => true,
        Pattern::Var(number) => flag(flags, *number),
        Pattern::Sum(left, right) => inhabited_by(flags, left) || inhabited_by(flags, right),
        Pattern::Prod(left, right) => match &**left {
            Pattern::Tag(_) => inhabited_by(flags, right),
            _ => inhabited_by(flags, left) && inhabited_by(flags, right),
        },
    }
}

/// Whether the empty word is a word of the pattern, once its variables are replaced by their values.
pub fn has_empty_word(tests: &Tests, pattern: &Pattern) -> bool
    ensures { (s : Scope) → IsTested s tests.now → result ≡ is_nullable (subst_of (pattern_of s) (pattern_view pattern.now)) }
{
    nullable_by(tests.nullable.as_slice(), pattern)
}

/// Whether the pattern has a word, once its variables are replaced by their values.
pub fn has_word(tests: &Tests, pattern: &Pattern) -> bool
    ensures { (s : Scope) → IsTested s tests.now → result ≡ is_inhabited (subst_of (pattern_of s) (pattern_view pattern.now)) }
{
    inhabited_by(tests.inhabited.as_slice(), pattern)
}
