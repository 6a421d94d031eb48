// Values resolved from behind: in each that is needed the later ones are put all at once, and shared by all that need it.
ghost use Rattle.std.specs.Prelude.{◌≡◌, ◌<◌, ◌+◌, [], true, length, drop, get_or, slice_set, IfOk, IfSome};
ghost use Rattle.std.specs.List.{AllByRecursion};
ghost use Rattle.pat_words_spec.specs.Patterns.{Zero, subst_of};
ghost use Rattle.pat_solve_spec.specs.Assignments.{put_in_turn};
ghost use Rattle.pat_solve_bounded.specs.Views.{measured_view, measured_list};
ghost use Rattle.pat_solve_bounded.specs.replacing.Ascending.{IsAscending, paired};
ghost use Rattle.pat_solve_bounded.specs.replacing.Replacing.{listed_in};
ghost use Rattle.pat_solve_elimination.specs.Needing.{AreClosed, is_marked};
ghost use Rattle.pat_solve_elimination.specs.Resolving.{AreResolved, Resolves};
ghost use Rattle.pat_solve_elimination.specs.Rounds.{IsRebuilt, turn_fits};

use crate::growing::{Growth, has_none};
use crate::needing::needed_places;
use crate::weighing::weigh;
use pat_sequences::Sequence;
use pat_solve_bounded::{Measured, Replacement, replaced};
use std::alloc::{AllocError, Global};

/// Values with all later ones put in, and what they weigh on the way, as far as they are known.
#[derive(Drop)]
pub struct KnownValues {
    pub values: Sequence<Measured>,
    pub weights: Sequence<Growth>,
}

/// The values by which the variables in the pattern may be replaced all at once, where that is the same as one after another; `None` where
/// what is made on the way might be past the limits. What stands at a variable that isn't needed says nothing.
pub fn resolved(
    alloc: Global,
    variables: &[u32],
    values: &[Measured],
    f: &Measured,
) -> Result<Option<Sequence<Measured>>, AllocError>
    requires ascending { IsAscending variables.now }
    requires as_many { length variables.now ≡ length values.now }
    requires rebuilt { AllByRecursion IsRebuilt (measured_list values.now) }
    ensures many { IfOk result (λ made. IfSome made (λ rs. length rs ≡ length variables.now)) }
    ensures some { IfOk result (λ made. IfSome made (λ rs. paired variables.now (measured_list values.now) ≡ [] → ⊥)) }
    ensures fits { IfOk result (λ made. IfSome made
        (λ rs. turn_fits (paired variables.now (measured_list values.now)) (measured_view f.now) ≡ true)) }
    ensures same { IfOk result (λ made. IfSome made
        (λ rs. subst_of (listed_in (paired variables.now (measured_list rs))) (measured_view f.now)
        ≡ put_in_turn (paired variables.now (measured_list values.now)) (measured_view f.now))) }
{
    if variables.is_empty() {
        return Ok(None);
    }
    let marks = needed_places(alloc, variables, values, f)?;
    match resolved_places(alloc, variables, values, marks.as_slice())? {
        Some(known) => match weigh(alloc, variables, known.weights.as_slice(), f)? {
            Some(_) => Ok(Some(known.values)),
            None => Ok(None),
        },
        None => Ok(None),
    }
}

/// The same of the marked values, from behind.
fn resolved_places(
    alloc: Global,
    variables: &[u32],
    values: &[Measured],
    marks: &[bool],
) -> Result<Option<KnownValues>, AllocError>
    requires ascending { IsAscending variables.now }
    requires as_many { length variables.now ≡ length values.now }
    requires rebuilt { AllByRecursion IsRebuilt (measured_list values.now) }
    requires many { length marks.now ≡ length variables.now }
    requires closed { AreClosed variables.now (measured_list values.now) (length variables.now) marks.now }
    ensures { IfOk result (λ made. IfSome made
        (λ known. AreResolved variables.now (measured_list values.now) marks.now 0 (measured_list known.values) known.weights)) }
{
    let mut known = nothing_known(alloc, variables.len())?;
    let mut place = variables.len();
    while place > 0 {
        place -= 1;
        if is_needed(marks, place) {
            match resolve(alloc, variables, values, &known, place)? {
                Some((value, weight)) => put(&mut known, place, value, weight),
                None => return Ok(None),
            }
        }
    }
    Ok(Some(known))
}

fn is_needed(marks: &[bool], place: usize) -> bool
    requires { place < length marks.now }
    ensures { result ≡ is_marked marks.now place }
{
    marks[place]
}

/// So many values that say nothing.
fn nothing_known(alloc: Global, count: usize) -> Result<KnownValues, AllocError>
    ensures values { IfOk result (λ known. length known.values ≡ count) }
    ensures weights { IfOk result (λ known. length known.weights ≡ count) }
{
    let mut values = Sequence::new(alloc);
    for _ in 0..count {
        values.push(Measured::zero())?;
    }
    let nothing = Growth {
        nodes: 1,
        levels: 1,
    };
    let weights = vec![in alloc; nothing; count]?;
    Ok(KnownValues {
        values,
        weights: Sequence::from_vec(weights),
    })
}

/// Puts the value at the place.
fn put(known: &mut KnownValues, place: usize, value: Measured, weight: Growth)
    requires values { place < length known.old.values }
    requires weights { place < length known.old.weights }
    ensures values { known.new.values ≡ slice_set known.old.values place value }
    ensures weights { known.new.weights ≡ slice_set known.old.weights place weight }
{
    let _ = known.values.replace(place, value);
    let _ = known.weights.replace(place, weight);
}

/// The value at the place, in which the later ones are put, and what it weighs on the way; `None` where that might be past the limits.
fn resolve(
    alloc: Global,
    variables: &[u32],
    values: &[Measured],
    known: &KnownValues,
    place: usize,
) -> Result<Option<(Measured, Growth)>, AllocError>
    requires ascending { IsAscending variables.now }
    requires as_many { length variables.now ≡ length values.now }
    requires place { place < length variables.now }
    requires so_many { length known.now.values ≡ length variables.now }
    requires weights { length known.now.weights ≡ length variables.now }
    requires rebuilt { AllByRecursion IsRebuilt (measured_list values.now) }
    ensures { let n = place + 1 in IfOk result
        (λ made. IfSome made (λ new. Resolves (drop n variables.now) (drop n (measured_list known.now.values)) (drop n known.now.weights)
        (get_or (measured_list values.now) place Zero) (measured_view new.0) new.1)) }
{
    let later = place + 1;
    let settled = known.values.as_slice();
    let weights = known.weights.as_slice();
    put_later(
        alloc,
        &variables[later..],
        &settled[later..],
        &weights[later..],
        &values[place],
    )
}

/// The value, in which the variables are replaced all at once.
fn put_later(
    alloc: Global,
    variables: &[u32],
    settled: &[Measured],
    weights: &[Growth],
    value: &Measured,
) -> Result<Option<(Measured, Growth)>, AllocError>
    requires ascending { IsAscending variables.now }
    requires as_many { length variables.now ≡ length settled.now }
    requires weights { length variables.now ≡ length weights.now }
    requires own { IsRebuilt (measured_view value.now) }
    ensures { IfOk result (λ made. IfSome made
        (λ new. Resolves variables.now (measured_list settled.now) weights.now (measured_view value.now) (measured_view new.0) new.1)) }
{
    if has_none(value, variables) {
        let same = Growth {
            nodes: value.nodes,
            levels: value.levels,
        };
        return Ok(Some((value.copy()?, same)));
    }
    match weigh(alloc, variables, weights, value)? {
        Some(weight) => {
            match replaced(
                alloc,
                &value.pattern,
                &Replacement::Listed(variables, settled),
            )? {
                Some(part) => Ok(Some((part.into_measured()?, weight))),
                None => Ok(None),
            }
        }
        None => Ok(None),
    }
}
