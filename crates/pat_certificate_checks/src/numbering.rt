// Variables of a pattern, numbered from 0, and their values.
ghost use Rattle.std.specs.Prelude.{◌≡◌, ◌∷◌, IfOk, OnOk};
ghost use Rattle.pat_inclusion_spec.specs.Values.{var_at};
ghost use Rattle.pat_patterns.specs.Views.{pattern_view, patterns_view};
ghost use Rattle.pat_grid_certificates.specs.Views.{values_view, value_view, right_view};
ghost use Rattle.pat_derivations.specs.Views.{value_view as own_value_view, vars_view};
ghost use Rattle.pat_certificate_checks.specs.Numbering.{with_name, with_names, place_of as place_in, renumbered as renumbered_of, right_in, or_none, values_of as values_in};

use pat_bags::Bag;
use pat_certificate_values::var_of;
use pat_derivations as derivations;
use pat_grid_certificates::{Right, VarValue};
use pat_obligations::holds;
use pat_patterns::{Pattern, join_product, join_star, join_sum, take_one};
use pat_sequences::{Sequence, Stack};
use std::alloc::{AllocError, Global};

fn add_name(names: &mut Sequence<u32>, name: u32) -> Result<(), AllocError>
    ensures { OnOk result (names.new ≡ with_name names.old name) }
{
    if holds(names.as_slice(), name) {
        return Ok(());
    }
    names.push(name)
}

/// Adds the variables of the pattern to the names, each once.
pub fn add_names(pattern: &Pattern, names: &mut Sequence<u32>) -> Result<(), AllocError>
    ensures { OnOk result (names.new ≡ with_names names.old (pattern_view pattern.now)) }
{
    match pattern {
        Pattern::Zero | Pattern::One | Pattern::Tag(_) => Ok(()),
        Pattern::Var(number) => add_name(names, *number),
        Pattern::Sum(left, right) | Pattern::Prod(left, right) => {
            add_names(left, names)?;
            add_names(right, names)
        }
        Pattern::Star(part) => add_names(part, names),
    }
}

/// The place of the name.
fn place_of(names: &[u32], name: u32) -> Result<u32, AllocError>
    ensures { IfOk result (λ place. place ≡ place_in names.now name) }
{
    let mut place: u32 = 0;
    for own in names {
        if name == *own {
            return Ok(place);
        }
        place = match place.checked_add(1) {
            None => return Err(AllocError),
            Some(next) => next,
        };
    }
    Ok(place)
}

/// The pattern in which each variable has the number of its place among the names.
pub fn renumbered(alloc: Global, names: &[u32], pattern: &Pattern) -> Result<Pattern, AllocError>
    ensures { IfOk result (λ p. pattern_view p ≡ renumbered_of names.now (pattern_view pattern.now)) }
{
    let mut done = Stack::new(alloc);
    renumber_onto(alloc, names, pattern, &mut done)?;
    Ok(take_one(&mut done))
}

/// Puts it on the stack.
fn renumber_onto(
    alloc: Global,
    names: &[u32],
    pattern: &Pattern,
    done: &mut Stack<Pattern>,
) -> Result<(), AllocError>
    ensures { OnOk result (patterns_view done.new ≡ renumbered_of names.now (pattern_view pattern.now) ∷ patterns_view done.old) }
{
    match pattern {
        Pattern::Zero => done.push(Pattern::Zero),
        Pattern::One => done.push(Pattern::One),
        Pattern::Tag(tag) => done.push(Pattern::Tag(*tag)),
        Pattern::Var(number) => {
            let place = place_of(names, *number)?;
            done.push(Pattern::Var(place))
        }
        Pattern::Sum(left, right) => {
            renumber_onto(alloc, names, left, done)?;
            renumber_onto(alloc, names, right, done)?;
            join_sum(alloc, done)
        }
        Pattern::Prod(left, right) => {
            renumber_onto(alloc, names, left, done)?;
            renumber_onto(alloc, names, right, done)?;
            join_product(alloc, done)
        }
        Pattern::Star(part) => {
            renumber_onto(alloc, names, part, done)?;
            join_star(alloc, done)
        }
    }
}

/// The pattern as a right side.
pub fn right_of(names: &[u32], pattern: &Pattern) -> Result<Right, AllocError>
    ensures { IfOk result (λ r. right_view r ≡ right_in names.now (pattern_view pattern.now)) }
{
    match pattern {
        Pattern::Var(number) => Ok(Right::Var(place_of(names, *number)?)),
        other => Ok(Right::Pattern(other.copy()?)),
    }
}

fn copied_points(alloc: Global, points: &[Bag]) -> Result<Sequence<Bag>, AllocError>
    ensures { IfOk result (λ copies. copies ≡ points.now) }
{
    let mut copies = Sequence::new(alloc);
    for point in points {
        copies.push(*point)?;
    }
    Ok(copies)
}

fn copied_value(alloc: Global, value: &derivations::VarValue) -> Result<VarValue, AllocError>
    ensures { IfOk result (λ v. value_view v ≡ own_value_view value.now) }
{
    match value {
        derivations::VarValue::Pattern(pattern) => Ok(VarValue::Pattern(pattern.copy()?)),
        derivations::VarValue::Grid { k, points } => Ok(VarValue::Grid {
            k: *k,
            points: copied_points(alloc, points.as_slice())?,
        }),
    }
}

fn value_of(
    alloc: Global,
    vars: &[(u32, derivations::VarValue)],
    name: u32,
) -> Result<VarValue, AllocError>
    ensures { IfOk result (λ v. value_view v ≡ or_none (var_at (vars_view vars.now) name)) }
{
    match var_of(vars, name) {
        None => Ok(VarValue::Pattern(Pattern::Zero)),
        Some((_, value)) => copied_value(alloc, value),
    }
}

/// The values of the names.
pub fn values_of(
    alloc: Global,
    vars: &[(u32, derivations::VarValue)],
    names: &[u32],
) -> Result<Sequence<VarValue>, AllocError>
    ensures { IfOk result (λ values. values_view values ≡ values_in (vars_view vars.now) names.now) }
{
    let mut values = Sequence::new(alloc);
    for name in names {
        let value = value_of(alloc, vars, *name)?;
        values.push(value)?;
    }
    Ok(values)
}
