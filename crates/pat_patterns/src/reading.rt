// The sizes of a pattern, and whether its variables have values.
ghost use Rattle.std.specs.Prelude.{◌≡◌, ◌-◌, ◌^◌, min};
ghost use Rattle.pat_words_spec.specs.Sizes.{size_of, levels_of};
ghost use Rattle.pat_words_spec.specs.Substitutions.{has_values as has_values_of};
ghost use Rattle.pat_patterns.specs.Views.{pattern_view};

use crate::pattern::Pattern;

/// The number of nodes, up to `u32::MAX`.
pub fn size(p: &Pattern) -> u32
    ensures { result ≡ min (size_of (pattern_view p.now)) (2 ^ 32 - 1) }
{
    match p {
        Pattern::Zero | Pattern::One | Pattern::Tag(_) | Pattern::Var(_) => 1,
        Pattern::Sum(left, right) | Pattern::Prod(left, right) => {
            size(left).saturating_add(size(right)).saturating_add(1)
        }
        Pattern::Star(part) => size(part).saturating_add(1),
    }
}

/// The number of levels, up to `u32::MAX`: one where there is no part, else one more than the part
/// with the most has.
pub fn levels(p: &Pattern) -> u32
    ensures { result ≡ min (levels_of (pattern_view p.now)) (2 ^ 32 - 1) }
{
    match p {
        Pattern::Zero | Pattern::One | Pattern::Tag(_) | Pattern::Var(_) => 1,
        Pattern::Sum(left, right) | Pattern::Prod(left, right) => {
            levels(left).max(levels(right)).saturating_add(1)
        }
        Pattern::Star(part) => levels(part).saturating_add(1),
    }
}

/// Whether each variable of the pattern is below `count`, so that it has a value among so many.
pub fn has_values(p: &Pattern, count: usize) -> bool
    ensures { result ≡ has_values_of count (pattern_view p.now) }
{
    match p {
        Pattern::Zero | Pattern::One | Pattern::Tag(_) => true,
        Pattern::Var(number) => (*number as usize) < count,
        Pattern::Sum(left, right) | Pattern::Prod(left, right) => {
            has_values(left, count) && has_values(right, count)
        }
        Pattern::Star(part) => has_values(part, count),
    }
}
