// Values that variables may have.
ghost use Rattle.std.specs.Prelude.{◌≡◌, ◌&&◌};
ghost use Rattle.pat_semantics_spec.specs.WellFormed.{WellFormed};
ghost use Rattle.pat_words_spec.specs.Patterns.{is_closed};
ghost use Rattle.pat_words_spec.specs.Tags.{tags_below};
ghost use Rattle.pat_inclusion_spec.specs.Values.{value_fits as value_fits_of, values_fit as values_fit_of};
ghost use Rattle.pat_derivation_spec.specs.Derivations.{scope_of};
ghost use Rattle.pat_patterns.specs.Views.{pattern_view};
ghost use Rattle.pat_core.specs.Views.{program_view};
ghost use Rattle.pat_derivations.specs.Views.{value_view, derivation_view};

use crate::looking::{tag_count, tags_are_few};
use crate::points::points_fit;
use pat_core::Program;
use pat_derivations::{Derivation, VarValue};
use pat_patterns::Pattern;

/// Whether the pattern has no variable, and its tags are below the number.
#[tactic(auto, using(crate::proofs::Pairs::in_pairs))]
fn is_closed_below(tags: u32, pattern: &Pattern) -> bool
    ensures { result ≡ (is_closed (pattern_view pattern.now) && tags_below tags (pattern_view pattern.now)) }
{
    match pattern {
        Pattern::Zero | Pattern::One => true,
        Pattern::Var(_) => false,
        Pattern::Tag(tag) => (*tag as u32) < tags,
        Pattern::Sum(left, right) | Pattern::Prod(left, right) => match &**left {
            Pattern::Tag(tag) => (*tag as u32) < tags && is_closed_below(tags, right),
            _ => is_closed_below(tags, left) && is_closed_below(tags, right),
        },
        Pattern::Star(part) => is_closed_below(tags, part),
    }
}

/// Whether the value is one that a variable of an interface of so many tags may have.
fn value_fits(tags: u32, value: &VarValue) -> bool
    ensures { result ≡ value_fits_of tags (value_view value.now) }
{
    match value {
        VarValue::Pattern(pattern) => 0 < tags && is_closed_below(tags, pattern),
        VarValue::Grid { k, points } => 0 < tags && points_fit(*k, tags, points.as_slice()),
    }
}

/// Whether each value is one that its variable may have.
pub fn values_fit(program: &Program, derivation: &Derivation) -> bool
    requires { WellFormed (program_view program.now) }
    ensures { result ≡ values_fit_of (scope_of (program_view program.now) (derivation_view derivation.now)) }
{
    for (interface, value) in derivation.vars.as_slice() {
        tags_are_few(program, *interface);
        let tags = tag_count(program, *interface) as u32;
        if !value_fits(tags, value) {
            return false;
        }
    }
    true
}
