// The form of an interface's values.
ghost use Rattle.std.specs.Prelude.{◌≡◌, ◌<◌, Some, length, map, IfOk};
ghost use Rattle.pat_core.specs.Views.{program_view};
ghost use Rattle.pat_infer_problems.specs.Problems.{IsProblemOf, IsEnough};
ghost use Rattle.pat_semantics_spec.specs.WellFormed.{WellFormed};
ghost use Rattle.pat_inclusion_spec.specs.Values.{PatternForm, GridForm};
ghost use Rattle.pat_derivations.specs.Views.{counts_of, value_view};
ghost use Rattle.pat_solve_bounded.specs.Views.{measured_list};
ghost use Rattle.pat_solve_closed_forms.specs.Indexes.{IsIndexOf};
ghost use Rattle.pat_solve.specs.interface.Found.{FormGives, IsUncovered, ArePatterns, IsWithout, IsByGrids};

use pat_bags::Bag;
use pat_core::Program;
use pat_derivations::VarValue;
use pat_infer_problems::Problem;
use pat_sequences::Sequence;
use pat_solve_bounded::Measured;
use pat_solve_closed_forms::{ClosedValues, Index, interface_values};
use pat_solve_grids::{InterfaceGrids, grid_bound, interface_grids};
use pat_witnesses::Refutation;
use std::alloc::{AllocError, Global};

/// A constraint that isn't shown: it is refuted, or nothing is known of it.
#[derive(Drop)]
pub struct Unshown {
    /// Its number, from 0.
    pub constraint: usize,
    pub refutation: Option<Refutation>,
}

/// What is found of an interface.
#[derive(Drop)]
pub enum InterfaceForm {
    /// The bound of its grids, or none where its values are patterns; and the value of each of its variables, in order.
    Solved(Option<u32>, Sequence<VarValue>),
    TooLarge,
    /// The first of its constraints that isn't shown.
    Unsolved(Unshown),
}

/// What is found of the interface: by the closed-form assignment, where it isn't too large and covers each constraint; otherwise by
/// grids, where the interface is in bounds.
pub fn interface_form(
    alloc: Global,
    program: &Program,
    problem: &Problem,
    index: &Index,
    interface: u32,
) -> Result<InterfaceForm, AllocError>
    requires well { WellFormed (program_view program.now) }
    requires problem { IsProblemOf program.now problem.now }
    requires enough { IsEnough (program_view program.now) }
    requires index { IsIndexOf problem.now index.now }
    requires as_many { length index.now.constraints ≡ length program.now.interfaces }
    requires there { interface < length program.now.interfaces }
    ensures { IfOk result (FormGives (program_view program.now) interface) }
{
    match interface_values(alloc, index, problem, interface as usize)? {
        ClosedValues::Covered(values) => pattern_form(alloc, values),
        ClosedValues::TooLarge => grid_form(alloc, program, problem, index, interface, None),
        ClosedValues::Uncovered(number) => {
            grid_form(alloc, program, problem, index, interface, Some(number))
        }
    }
}

/// The values are patterns.
fn pattern_form(alloc: Global, values: Sequence<Measured>) -> Result<InterfaceForm, AllocError>
    ensures { IfOk result (ArePatterns (measured_list values)) }
{
    let values = pattern_values(alloc, values)?;
    Ok(InterfaceForm::Solved(None, values))
}

/// The form by grids, where the closed-form assignment is too large, or this constraint is the first that it doesn't cover.
fn grid_form(
    alloc: Global,
    program: &Program,
    problem: &Problem,
    index: &Index,
    interface: u32,
    uncovered: Option<usize>,
) -> Result<InterfaceForm, AllocError>
    requires well { WellFormed (program_view program.now) }
    requires problem { IsProblemOf program.now problem.now }
    requires enough { IsEnough (program_view program.now) }
    requires index { IsIndexOf problem.now index.now }
    requires as_many { length index.now.constraints ≡ length program.now.interfaces }
    requires there { interface < length program.now.interfaces }
    requires uncovered { IsUncovered (program_view program.now) interface uncovered }
    ensures { IfOk result (FormGives (program_view program.now) interface) }
{
    match grid_bound(program, problem, index, interface) {
        Some(k) => {
            let grids = interface_grids(alloc, program, problem, index, interface, k)?;
            found_form(alloc, k, grids)
        }
        None => Ok(without_form(uncovered)),
    }
}

/// What there is without grids.
fn without_form(uncovered: Option<usize>) -> InterfaceForm
    ensures { IsWithout uncovered result }
{
    match uncovered {
        Some(constraint) => InterfaceForm::Unsolved(Unshown {
            constraint,
            refutation: None,
        }),
        None => InterfaceForm::TooLarge,
    }
}

/// What there is with the grids.
fn found_form(alloc: Global, k: u32, grids: InterfaceGrids) -> Result<InterfaceForm, AllocError>
    ensures { IfOk result (IsByGrids k grids) }
{
    let InterfaceGrids {
        points,
        refuted,
        is_oversized,
    } = grids;
    if is_oversized {
        return Ok(too_large((points, refuted)));
    }
    match refuted {
        Some((constraint, refutation)) => Ok(unsolved(constraint, refutation, points)),
        None => {
            let values = grid_values(alloc, k, points)?;
            Ok(InterfaceForm::Solved(Some(k), values))
        }
    }
}

fn too_large<T: Drop>(_gone: T) -> InterfaceForm
    ensures { result ≡ InterfaceForm.TooLarge }
{
    InterfaceForm::TooLarge
}

fn unsolved<T: Drop>(constraint: usize, refutation: Refutation, _gone: T) -> InterfaceForm
    ensures { result ≡ InterfaceForm.Unsolved (record { constraint = constraint; refutation = Some refutation }) }
{
    InterfaceForm::Unsolved(Unshown {
        constraint,
        refutation: Some(refutation),
    })
}

/// The patterns as values.
fn pattern_values(
    alloc: Global,
    patterns: Sequence<Measured>,
) -> Result<Sequence<VarValue>, AllocError>
    ensures { IfOk result (λ values. map value_view values ≡ map PatternForm (measured_list patterns)) }
{
    let mut patterns = patterns;
    let mut values = Sequence::new(alloc);
    for place in 0..patterns.len() {
        let part = patterns.replace(place, Measured::zero());
        values.push(VarValue::Pattern(part.pattern))?;
    }
    Ok(values)
}

/// The points as values.
fn grid_values(
    alloc: Global,
    k: u32,
    points: Sequence<Sequence<Bag>>,
) -> Result<Sequence<VarValue>, AllocError>
    ensures { IfOk result (λ values. map value_view values ≡ map (λ ps. GridForm k (map counts_of ps)) points) }
{
    let mut points = points;
    let mut values = Sequence::new(alloc);
    for place in 0..points.len() {
        let own = points.replace(place, Sequence::new(alloc));
        values.push(VarValue::Grid { k, points: own })?;
    }
    Ok(values)
}
