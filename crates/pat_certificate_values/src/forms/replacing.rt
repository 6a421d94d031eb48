// Patterns in which values are put, built only as long as they are small.
ghost use Rattle.std.specs.Prelude.{◌≡◌, ◌∷◌, ◌≤◌, length, IfOk, OnOk, List, Option};
ghost use Rattle.std.specs.List.{AllByRecursion};
ghost use Rattle.pat_words_spec.specs.Patterns.{Pat, sum_of, prod_of, star_of, subst_of};
ghost use Rattle.pat_semantics_spec.specs.WellFormed.{WellFormed};
ghost use Rattle.pat_inclusion_spec.specs.Values.{pattern_of};
ghost use Rattle.pat_derivation_spec.specs.Derivations.{scope_of};
ghost use Rattle.pat_patterns.specs.Views.{pattern_view};
ghost use Rattle.pat_core.specs.Views.{program_view};
ghost use Rattle.pat_certificate_values.specs.Views.{derivation_view};
ghost use Rattle.pat_certificate_values.specs.declared.forms.building.Built.{Built as BuiltValue};
ghost use Rattle.pat_certificate_values.specs.forms.Limits.{IsLimited, Limits, Puts};

use crate::forms::building::{Built, copied, leaf, product_within, star_within, sum_within};
use crate::forms::point_patterns::points;
use crate::{tag_count, tags_are_few, var_of};
use pat_core::Program;
use pat_derivations::{Derivation, VarValue};
use pat_patterns::Pattern;
use pat_sequences::Stack;
use std::alloc::{AllocError, Global};

/// The pattern with its variables replaced by their values, by the simplifying forms; nothing, if it is too large.
pub fn replaced(
    alloc: Global,
    program: &Program,
    derivation: &Derivation,
    pattern: &Pattern,
) -> Result<Option<Built>, AllocError>
    requires { WellFormed (program_view program.now) }
    ensures { IfOk result (Limits (subst_of (pattern_of (scope_of (program_view program.now) (derivation_view derivation.now)))
        (pattern_view pattern.now))) }
{
    let mut done = Stack::new(alloc);
    replace_onto(alloc, program, derivation, pattern, &mut done)?;
    Ok(take(&mut done))
}

/// The value of a variable: 0 where it isn't there.
fn value_of(
    alloc: Global,
    program: &Program,
    derivation: &Derivation,
    number: u32,
) -> Result<Option<Built>, AllocError>
    requires { WellFormed (program_view program.now) }
    ensures { IfOk result (Limits (pattern_of (scope_of (program_view program.now) (derivation_view derivation.now)) number)) }
{
    match var_of(derivation.vars.as_slice(), number) {
        None => Ok(Some(leaf(Pattern::Zero))),
        Some((interface, value)) => match value {
            VarValue::Pattern(pattern) => copied(pattern),
            VarValue::Grid { k, points: own } => {
                tags_are_few(program, *interface);
                points(alloc, *k, tag_count(program, *interface), own.as_slice())
            }
        },
    }
}

/// Puts it on the stack.
fn replace_onto(
    alloc: Global,
    program: &Program,
    derivation: &Derivation,
    pattern: &Pattern,
    done: &mut Stack<Option<Built>>,
) -> Result<(), AllocError>
    requires well { WellFormed (program_view program.now) }
    requires limited { AllByRecursion IsLimited done.old }
    ensures { OnOk result (Puts (subst_of (pattern_of (scope_of (program_view program.now) (derivation_view derivation.now)))
        (pattern_view pattern.now)) done.old done.new) }
{
    match pattern {
        Pattern::Zero => done.push(Some(leaf(Pattern::Zero))),
        Pattern::One => done.push(Some(leaf(Pattern::One))),
        Pattern::Tag(tag) => done.push(Some(leaf(Pattern::Tag(*tag)))),
        Pattern::Var(number) => put_value(alloc, program, derivation, *number, done),
        Pattern::Sum(left, right) => {
            replace_onto(alloc, program, derivation, left, done)?;
            replace_onto(alloc, program, derivation, right, done)?;
            put_sum(alloc, done)
        }
        Pattern::Prod(left, right) => {
            replace_onto(alloc, program, derivation, left, done)?;
            replace_onto(alloc, program, derivation, right, done)?;
            put_product(alloc, done)
        }
        Pattern::Star(part) => {
            replace_onto(alloc, program, derivation, part, done)?;
            put_star(alloc, done)
        }
    }
}

/// Takes what is on top.
fn take(done: &mut Stack<Option<Built>>) -> Option<Built>
    requires { 1 ≤ length done.old }
    ensures { done.old ≡ result ∷ done.new }
{
    match done.pop() {
        Some(top) => top,
        None => unreachable!(),
    }
}

#[inline(never)]
fn put_value(
    alloc: Global,
    program: &Program,
    derivation: &Derivation,
    number: u32,
    done: &mut Stack<Option<Built>>,
) -> Result<(), AllocError>
    requires { WellFormed (program_view program.now) }
    ensures { OnOk result (Puts (pattern_of (scope_of (program_view program.now)
        (derivation_view derivation.now)) number) done.old done.new) }
{
    let value = value_of(alloc, program, derivation, number)?;
    done.push(value)
}

#[inline(never)]
fn put_sum(alloc: Global, done: &mut Stack<Option<Built>>) -> Result<(), AllocError>
    requires two { 2 ≤ length done.old }
    requires limited { AllByRecursion IsLimited done.old }
    ensures { OnOk result ((e f : Pat) (rest middle : List (Option BuiltValue)) → Puts e rest middle → Puts f middle done.old
        → Puts (sum_of e f) rest done.new) }
{
    let right = take(done);
    let left = take(done);
    let both = sum_within(alloc, left, right)?;
    done.push(both)
}

#[inline(never)]
fn put_product(alloc: Global, done: &mut Stack<Option<Built>>) -> Result<(), AllocError>
    requires two { 2 ≤ length done.old }
    requires limited { AllByRecursion IsLimited done.old }
    ensures { OnOk result ((e f : Pat) (rest middle : List (Option BuiltValue)) → Puts e rest middle → Puts f middle done.old
        → Puts (prod_of e f) rest done.new) }
{
    let right = take(done);
    let left = take(done);
    let both = product_within(alloc, left, right)?;
    done.push(both)
}

#[inline(never)]
fn put_star(alloc: Global, done: &mut Stack<Option<Built>>) -> Result<(), AllocError>
    requires one { 1 ≤ length done.old }
    requires limited { AllByRecursion IsLimited done.old }
    ensures { OnOk result ((e : Pat) (rest : List (Option BuiltValue)) → Puts e rest done.old → Puts (star_of e) rest done.new) }
{
    let part = take(done);
    let whole = star_within(alloc, part)?;
    done.push(whole)
}
