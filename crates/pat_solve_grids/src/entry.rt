// The grids of an interface.
ghost use Rattle.std.specs.Prelude.{◌≡◌, ◌<◌, length, IfOk};
ghost use Rattle.std.specs.List.{AllByRecursion};
ghost use Rattle.pat_semantics_spec.specs.WellFormed.{WellFormed};
ghost use Rattle.pat_infer_spec.specs.Shapes.{ConstraintFits};
ghost use Rattle.pat_infer_spec.specs.Walk.{inferred, all_vars};
ghost use Rattle.pat_solve_spec.specs.Answers.{IsInBounds, grid_bound as bound_of};
ghost use Rattle.pat_core.specs.Views.{program_view};
ghost use Rattle.pat_infer_problems.specs.Problems.{IsProblemOf};
ghost use Rattle.pat_solve_bounds.specs.lower_bounds.Indexes.{IsIndexOf};
ghost use Rattle.pat_solve_grids.specs.Grids.{AreGridsOf};

use crate::points::list_points;
use crate::searches::search_each;
use pat_bags::Bag;
use pat_certificate_values::{tag_count, tags_are_few};
use pat_core::Program;
use pat_grid_points::points_law;
use pat_infer_problems::Problem;
use pat_sequences::Sequence;
use pat_solve_bounds::{Index, let_go, system_of};
use pat_witnesses::Refutation;
use std::alloc::{AllocError, Global};

/// The grids of an interface, and what searches of its constraints find.
#[derive(Drop)]
pub struct InterfaceGrids {
    /// Of each variable of the interface, in order of number, the points of its least grid, ascending.
    pub points: Sequence<Sequence<Bag>>,
    /// The number of the first constraint of the interface that is refuted, and how.
    pub refuted: Option<(usize, Refutation)>,
    /// Whether a constraint of the interface is oversized: a word refutes it, but each tree that shows one is too large.
    pub is_oversized: bool,
}

/// The least grids of the variables of an interface in bounds, whose bound is `k`; and what searches of its constraints without
/// variables on the right find, in order: a derivable word that refutes, with a least tree, which has 4,096 nodes at most, or larger
/// ones alone.
pub fn interface_grids(
    alloc: Global,
    program: &Program,
    problem: &Problem,
    index: &Index,
    interface: u32,
    k: u32,
) -> Result<InterfaceGrids, AllocError>
    requires well { WellFormed (program_view program.now) }
    requires problem { IsProblemOf program.now problem.now }
    requires sides { let p = program_view program.now in AllByRecursion (ConstraintFits p (all_vars p)) (inferred p).constraints }
    requires index { IsIndexOf problem.now index.now }
    requires interface { interface < length index.now.constraints }
    requires bounds { IsInBounds (program_view program.now) interface }
    requires bound { k ≡ bound_of (program_view program.now) interface }
    ensures { IfOk result (AreGridsOf (program_view program.now) interface) }
{
    points_law();
    tags_are_few(program, interface);
    let tags = tag_count(program, interface) as u8;
    let constraints = problem.constraints.as_slice();
    let numbers = index.constraints_of(interface as usize);
    let variables = index.variables_of(interface as usize);
    let system = system_of(alloc, constraints, numbers, variables)?;
    let (grids, findings) = search_each(
        alloc,
        system.as_slice(),
        constraints,
        numbers,
        variables,
        k,
        tags,
    )?;
    let points = list_points(alloc, grids.as_slice())?;
    let_go(system);
    Ok(InterfaceGrids {
        points,
        refuted: findings.refuted,
        is_oversized: findings.is_oversized,
    })
}
