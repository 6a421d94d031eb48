// Kinds, types and their parts, two at a time.
ghost use Rattle.std.specs.Prelude.{◌≡◌};
ghost use Rattle.pat_words_spec.specs.Patterns.{pat_eq};
ghost use Rattle.pat_patterns.specs.Views.{pattern_view};
ghost use Rattle.pat_primitives.specs.Views.{base_view, polarity_view};
ghost use Rattle.pat_core.specs.Views.{kind_view};
ghost use Rattle.pat_types.specs.Views.{usage_view, result_view};
ghost use Rattle.pat_type_schemes_spec.specs.Compared.{polarity_eq, is_second as is_second_of, usage_fits as usage_fits_of};
ghost use Rattle.pat_derivation_spec.specs.Same.{is_same_base, is_same_kind, is_same_type};

use pat_core::Kind;
use pat_patterns::Pattern;
use pat_primitives::{Base, Polarity};
use pat_types::{TypeOf, Usage};

/// Whether the polarities are the same.
pub fn same_polarity(left: Polarity, right: Polarity) -> bool
    ensures { result ≡ polarity_eq (polarity_view left) (polarity_view right) }
{
    match left {
        Polarity::Sending => matches!(right, Polarity::Sending),
        Polarity::Receiving => matches!(right, Polarity::Receiving),
    }
}

/// Whether the usage is second-class.
pub fn is_second(usage: Usage) -> bool
    ensures { result ≡ is_second_of (usage_view usage) }
{
    matches!(usage, Usage::Second)
}

/// Whether what is used so may be used in the other way: what is second-class isn't returnable.
pub fn usage_fits(given: Usage, asked: Usage) -> bool
    ensures { result ≡ usage_fits_of (usage_view given) (usage_view asked) }
{
    !is_second(given) || is_second(asked)
}

/// Whether the base types are the same.
pub fn same_base(left: Base, right: Base) -> bool
    ensures { result ≡ is_same_base (base_view left) (base_view right) }
{
    match left {
        Base::Unit => matches!(right, Base::Unit),
        Base::Bool => matches!(right, Base::Bool),
        Base::Int => matches!(right, Base::Int),
        Base::Str => matches!(right, Base::Str),
    }
}

/// Whether the kinds are the same.
pub fn same_kind(left: Kind, right: Kind) -> bool
    ensures { result ≡ is_same_kind (kind_view left) (kind_view right) }
{
    match left {
        Kind::Unit => matches!(right, Kind::Unit),
        Kind::Bool => matches!(right, Kind::Bool),
        Kind::Int => matches!(right, Kind::Int),
        Kind::Str => matches!(right, Kind::Str),
        Kind::Mailbox(own) => match right {
            Kind::Mailbox(other) => own == other,
            _ => false,
        },
    }
}

/// Whether the patterns are the same, as they are written. Long ones are products of tags, which need no call.
pub fn same_pattern(left: &Pattern, right: &Pattern) -> bool
    ensures { result ≡ pat_eq (pattern_view left.now) (pattern_view right.now) }
{
    match (left, right) {
        (Pattern::Prod(first, second), Pattern::Prod(other_first, other_second)) => {
            match (&**first, &**other_first) {
                (Pattern::Tag(tag), Pattern::Tag(other)) => {
                    tag == other && same_pattern(second, other_second)
                }
                _ => same_pattern(first, other_first) && same_pattern(second, other_second),
            }
        }
        (Pattern::Sum(first, second), Pattern::Sum(other_first, other_second)) => {
            is_same_part(first, other_first) && same_pattern(second, other_second)
        }
        _ => is_same_part(left, right),
    }
}

/// So of patterns that are mostly no long products.
fn is_same_part(left: &Pattern, right: &Pattern) -> bool
    ensures { result ≡ pat_eq (pattern_view left.now) (pattern_view right.now) }
{
    left.is_same(right)
}

/// Whether the types of terms are the same, as they are written.
pub fn same_type(left: &TypeOf, right: &TypeOf) -> bool
    ensures { result ≡ is_same_type (result_view left.now) (result_view right.now) }
{
    match left {
        TypeOf::Base(own) => match right {
            TypeOf::Base(other) => same_base(*own, *other),
            TypeOf::Mailbox { .. } => false,
        },
        TypeOf::Mailbox {
            interface,
            polarity,
            pattern,
        } => match right {
            TypeOf::Base(_) => false,
            TypeOf::Mailbox {
                interface: other,
                polarity: other_polarity,
                pattern: other_pattern,
            } => {
                interface == other
                    && same_polarity(*polarity, *other_polarity)
                    && same_pattern(pattern, other_pattern)
            }
        },
    }
}
