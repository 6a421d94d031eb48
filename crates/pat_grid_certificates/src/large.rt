// When a bound is large enough for a right side.
ghost use Rattle.std.specs.Prelude.{◌≡◌, ◌^◌, ◌-◌, min};
ghost use Rattle.pat_words_spec.specs.Flats.{degree_of};
ghost use Rattle.pat_patterns.specs.Views.{pattern_view};
ghost use Rattle.pat_grid_certificates.specs.Views.{value_view, values_view, right_view};
ghost use Rattle.pat_grid_certificates.specs.Shows.{is_large, has_form};

use crate::values::{Right, VarValue};
use pat_patterns::{Pattern, is_flat};

/// The degree of the pattern, up to `u32::MAX`.
fn degree_within(p: &Pattern) -> u32
    ensures { result ≡ min (degree_of (pattern_view p.now)) (2 ^ 32 - 1) }
{
    match p {
        Pattern::Zero | Pattern::One | Pattern::Star(_) | Pattern::Var(_) => 0,
        Pattern::Tag(_) => 1,
        Pattern::Sum(left, right) => degree_within(left).max(degree_within(right)),
        Pattern::Prod(left, right) => degree_within(left).saturating_add(degree_within(right)),
    }
}

/// Whether the bound is large enough for the right side as it stands: a flat pattern whose degree is below it, or a variable
/// whose value is a set of points with just this bound.
pub fn is_large_enough(right: &Right, vars: &[VarValue], k: u32) -> bool
    ensures { result ≡ is_large k (values_view vars.now) (right_view right.now) }
{
    match right {
        Right::Pattern(f) => is_flat(f) && degree_within(f) < k,
        Right::Var(variable) => match vars.get(*variable as usize) {
            Some(value) => has_bound(value, k),
            None => false,
        },
    }
}

/// Whether the value is a set of points with this bound.
fn has_bound(value: &VarValue, k: u32) -> bool
    ensures { result ≡ has_form k (value_view value.now) }
{
    match value {
        VarValue::Pattern(_) => false,
        VarValue::Grid {
            k: bound,
            points: _,
        } => *bound == k,
    }
}
