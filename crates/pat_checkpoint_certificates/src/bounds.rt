// The bounds of grids, by inference once more.
ghost use Rattle.std.specs.Prelude.{◌≡◌, ◌<◌, ◌&&◌, ℕ, length, nat_lt, IfOk, OnOk};
ghost use Rattle.pat_semantics_spec.specs.WellFormed.{WellFormed};
ghost use Rattle.pat_type_system_spec.specs.Typings.{IsTypable};
ghost use Rattle.pat_core.specs.Views.{program_view};
ghost use Rattle.pat_infer_problems.specs.Problems.{IsProblemOf, IsEnough};
ghost use Rattle.pat_solve_bounds.specs.lower_bounds.Indexes.{IsIndexOf};
ghost use Rattle.pat_checkpoint_certificates.specs.Bounds.{bound_in, listed_at};

use pat_core::Program;
use pat_infer::constraints;
use pat_infer_problems::{InferError, Problem};
use pat_sequences::Sequence;
use pat_solve_bounds::Index;
use pat_solve_grids::grid_bound;
use std::alloc::{AllocError, Global};

/// For each interface of a program that can be typed the bound that solving takes for its grids, if it is in bounds.
pub fn grid_bounds(alloc: Global, program: &Program) -> Result<Sequence<Option<u32>>, AllocError>
    requires well { WellFormed (program_view program.now) }
    requires typable { IsTypable (program_view program.now) }
    ensures { IfOk result (λ bounds. (i : ℕ) → listed_at bounds i ≡ bound_in (program_view program.now) i) }
{
    let problem = problem_of(alloc, program)?;
    bounds_of(alloc, program, &problem)
}

/// The constraints of a program that can be typed.
fn problem_of(alloc: Global, program: &Program) -> Result<Problem, AllocError>
    requires well { WellFormed (program_view program.now) }
    requires typable { IsTypable (program_view program.now) }
    ensures problem { IfOk result (IsProblemOf program.now) }
    ensures enough { OnOk result (IsEnough (program_view program.now)) }
{
    match constraints(alloc, program) {
        Ok(problem) => Ok(problem),
        // It can be typed.
        Err(InferError::Untypable { span: _, rule: _ }) => unreachable!(),
        Err(InferError::NoMemory) => Err(AllocError),
    }
}

fn bounds_of(
    alloc: Global,
    program: &Program,
    problem: &Problem,
) -> Result<Sequence<Option<u32>>, AllocError>
    requires well { WellFormed (program_view program.now) }
    requires problem { IsProblemOf program.now problem.now }
    requires enough { IsEnough (program_view program.now) }
    ensures { IfOk result (λ bounds. (i : ℕ) → listed_at bounds i ≡ bound_in (program_view program.now) i) }
{
    let interfaces = program.interfaces.len();
    if interfaces > u32::MAX as usize {
        return Err(AllocError);
    }
    let index = Index::of(alloc, interfaces, problem)?;
    let mut bounds = Sequence::new(alloc);
    for interface in 0..interfaces as u32 {
        let bound = bound_at(program, problem, &index, interface);
        bounds.push(bound)?;
    }
    Ok(bounds)
}

fn bound_at(program: &Program, problem: &Problem, index: &Index, interface: u32) -> Option<u32>
    requires well { WellFormed (program_view program.now) }
    requires problem { IsProblemOf program.now problem.now }
    requires enough { IsEnough (program_view program.now) }
    requires index { IsIndexOf problem.now index.now }
    requires as_many { length index.now.constraints ≡ length program.now.interfaces }
    requires there { interface < length program.now.interfaces }
    ensures { result ≡ bound_in (program_view program.now) interface }
{
    grid_bound(program, problem, index, interface)
}
