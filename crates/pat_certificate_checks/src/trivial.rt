// Trivial inclusions.
ghost use Rattle.std.specs.Prelude.{◌≡◌, ◌||◌, ℕ, length, IsTrue, IfOk};
ghost use Rattle.pat_words_spec.specs.Patterns.{Sum, is_zero, is_one, sum_of, subst_of};
ghost use Rattle.pat_words_spec.specs.Substitutions.{has_values};
ghost use Rattle.pat_inclusion_spec.specs.Values.{Scope, is_formed};
ghost use Rattle.pat_inclusion_spec.specs.Certificates.{is_arm as is_arm_of, is_trivial as is_trivial_of};
ghost use Rattle.pat_patterns.specs.Views.{pattern_view, patterns_view, value_at};
ghost use Rattle.pat_derivations.specs.Views.{value_view, derivation_view};
ghost use Rattle.pat_certificate_checks.specs.Views.{side_view};
ghost use Rattle.pat_certificate_checks.specs.Plain.{plain_value_of, all_plain};

use crate::inclusions::Side;
use pat_certificate_values::same_pattern;
use pat_derivations::{Derivation, VarValue};
use pat_patterns::{Pattern, subst};
use pat_sequences::Sequence;
use std::alloc::{AllocError, Global};

/// Whether the left side is the right one or one of its arms.
fn is_arm(left: &Pattern, right: &Pattern) -> bool
    ensures { result ≡ is_arm_of (pattern_view left.now) (pattern_view right.now) }
{
    match right {
        Pattern::Sum(first, second) => {
            same_pattern(left, right) || (is_arm(left, first) || is_arm(left, second))
        }
        _ => same_pattern(left, right),
    }
}

/// Whether the pattern is 0 once these values are put in.
#[tactic(auto, using(crate::proofs::Arms::zero_sum, crate::proofs::Arms::zero_prod, crate::proofs::Arms::zero_star))]
fn is_zero_with(pattern: &Pattern, values: &[Pattern]) -> bool
    requires { IsTrue (has_values (length values.now) (pattern_view pattern.now)) }
    ensures { result ≡ is_zero (subst_of (value_at (patterns_view values.now)) (pattern_view pattern.now)) }
{
    match pattern {
        Pattern::Zero => true,
        Pattern::One | Pattern::Tag(_) | Pattern::Star(_) => false,
        Pattern::Var(number) => values[*number as usize].is_zero(),
        Pattern::Sum(left, right) => is_zero_with(left, values) && is_zero_with(right, values),
        Pattern::Prod(left, right) => is_zero_with(left, values) || is_zero_with(right, values),
    }
}

/// Whether it is seen without putting in these values that then the left side is the right one or one of its arms. An arm of a sum
/// that is 0 then may be left out.
#[tactic(auto, using(crate::proofs::Arms::arm_stays, crate::proofs::Arms::alike))]
fn stays_arm(left: &Pattern, right: &Pattern, values: &[Pattern]) -> bool
    requires { IsTrue (has_values (length values.now) (pattern_view left.now)) }
    ensures { IsTrue result → IsTrue (is_arm_of (subst_of (value_at (patterns_view values.now)) (pattern_view left.now))
        (subst_of (value_at (patterns_view values.now)) (pattern_view right.now))) }
{
    match right {
        Pattern::Sum(..) => is_arm(left, right) && !is_zero_with(left, values),
        _ => same_pattern(left, right),
    }
}

/// The value where it is a pattern, and otherwise the variable.
fn plain_value(number: u32, value: &VarValue) -> Result<Pattern, AllocError>
    ensures { IfOk result (λ p. pattern_view p ≡ plain_value_of number (value_view value.now)) }
{
    match value {
        VarValue::Pattern(pattern) => pattern.copy(),
        VarValue::Grid { k: _, points: _ } => Ok(Pattern::Var(number)),
    }
}

/// For each number of a variable, from 0, its value where that is a pattern, and otherwise the variable.
pub fn plain_values(alloc: Global, derivation: &Derivation) -> Result<Sequence<Pattern>, AllocError>
    ensures { IfOk result (λ plain. patterns_view plain ≡ all_plain (derivation_view derivation.now).vars) }
{
    let mut plain = Sequence::new(alloc);
    plain.push(Pattern::Var(0))?;
    let mut number: u32 = 0;
    for (_, value) in derivation.vars.as_slice() {
        number = match number.checked_add(1) {
            None => return Err(AllocError),
            Some(next) => next,
        };
        let own = plain_value(number, value)?;
        plain.push(own)?;
    }
    Ok(plain)
}

/// Whether the pattern is 0 or 1.
fn is_unit(pattern: &Pattern) -> bool
    ensures { result ≡ (is_zero (pattern_view pattern.now) || is_one (pattern_view pattern.now)) }
{
    pattern.is_zero() || pattern.is_one()
}

/// Whether the sum of these two keeps both.
fn is_kept_sum(left: &Pattern, right: &Pattern) -> bool
    ensures { IsTrue result → sum_of (pattern_view left.now) (pattern_view right.now) ≡ Sum (pattern_view left.now) (pattern_view right.now) }
{
    !left.is_zero() && !right.is_zero() && !same_pattern(left, right)
}

/// Whether it is seen without putting in these values that then the side is this pattern.
#[tactic(auto, using(crate::proofs::Becoming::sum_becomes, crate::proofs::Becoming::prod_becomes, crate::proofs::Becoming::star_becomes))]
fn becomes(side: &Pattern, whole: &Pattern, values: &[Pattern]) -> bool
    requires { IsTrue (has_values (length values.now) (pattern_view side.now)) }
    ensures { IsTrue result → subst_of (value_at (patterns_view values.now)) (pattern_view side.now) ≡ pattern_view whole.now }
{
    match (side, whole) {
        (Pattern::Zero, Pattern::Zero) | (Pattern::One, Pattern::One) => true,
        (Pattern::Tag(tag), Pattern::Tag(own)) => tag == own,
        (Pattern::Var(number), _) => same_pattern(&values[*number as usize], whole),
        (Pattern::Sum(left, right), Pattern::Sum(first, second)) => {
            is_kept_sum(first, second)
                && becomes(left, first, values)
                && becomes(right, second, values)
        }
        (Pattern::Prod(left, right), Pattern::Prod(first, second)) => {
            !is_unit(first)
                && !is_unit(second)
                && becomes(left, first, values)
                && becomes(right, second, values)
        }
        (Pattern::Star(part), Pattern::Star(own)) => !is_unit(own) && becomes(part, own, values),
        _ => false,
    }
}

/// The side with the values that are patterns put in. That of a variable is lent, and so is a side without parts.
fn with_values<'a>(
    alloc: Global,
    side: &'a Pattern,
    plain: &'a [Pattern],
) -> Result<Side<'a>, AllocError>
    requires { IsTrue (has_values (length plain.now) (pattern_view side.now)) }
    ensures { IfOk result (λ own. side_view own ≡ subst_of (value_at (patterns_view plain.now)) (pattern_view side.now)) }
{
    match side {
        Pattern::Zero | Pattern::One | Pattern::Tag(_) => Ok(Side::Lent(side)),
        Pattern::Var(number) => Ok(Side::Lent(&plain[*number as usize])),
        Pattern::Sum(..) | Pattern::Prod(..) | Pattern::Star(_) => {
            Ok(Side::Made(subst(alloc, side, plain)?))
        }
    }
}

/// Whether the left side is the right one or one of its arms, once the values that are patterns are put in. Both are patterns of
/// an interface. Mostly it is an arm as it is written, or becomes the right one, and nothing is put in on the left.
pub fn is_trivial(
    alloc: Global,
    plain: &[Pattern],
    left: &Pattern,
    right: &Pattern,
) -> Result<bool, AllocError>
    requires left { IsTrue (has_values (length plain.now) (pattern_view left.now)) }
    requires right { IsTrue (has_values (length plain.now) (pattern_view right.now)) }
    ensures { IfOk result (λ yes. (s : Scope) (i : ℕ) → patterns_view plain.now ≡ all_plain s.vars
        → IsTrue (is_formed s i (pattern_view left.now)) → IsTrue (is_formed s i (pattern_view right.now))
        → yes ≡ is_trivial_of s (pattern_view left.now) (pattern_view right.now)) }
{
    if stays_arm(left, right, plain) {
        return Ok(true);
    }
    let right = with_values(alloc, right, plain)?;
    if becomes(left, right.as_pattern(), plain) {
        return Ok(true);
    }
    let left = with_values(alloc, left, plain)?;
    Ok(is_arm(left.as_pattern(), right.as_pattern()))
}
