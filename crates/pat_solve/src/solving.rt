// The solution of a problem.
ghost use Rattle.std.specs.Prelude.{◌≡◌, ◌<◌, ◌+◌, length, IfOk, IfErr};
ghost use Rattle.pat_semantics_spec.specs.WellFormed.{WellFormed};
ghost use Rattle.pat_core.specs.Views.{program_view};
ghost use Rattle.pat_infer_problems.specs.Problems.{IsProblemOf, IsEnough};
ghost use Rattle.pat_solve_spec.specs.Answers.{AllUsable};
ghost use Rattle.pat_solve_bounds.specs.results.Views.{IsAnswer, IsUntypable, IsComplete};
ghost use Rattle.pat_solve_bounds.specs.lower_bounds.Indexes.{IsIndexOf};
ghost use Rattle.pat_solve.specs.Smallest.{IsSmallest, IsBestRefusal, IsBestAnswer};
ghost use Rattle.pat_solve.specs.States.{Stands};

use crate::interface::interface_form;
use crate::states::{Progress, begun, finished, took};
use pat_core::Program;
use pat_infer_problems::Problem;
use pat_solve_bounds::{Index, Solution, SolveError, first_unusable, index_law};
use pat_solve_laws::{answer_laws, refusal_laws};
use std::alloc::{AllocError, Global};

/// The solution of the problem of a well-formed program in which no rule of inference is broken; otherwise the first reason why there
/// is none: a variable that is unusable, an interface that is too large, or a constraint that is refuted or of which nothing is
/// known, in this order. No tree of a word that refutes that constraint is smaller than the one that is given (`smallest`).
///
/// Where a constraint is refuted, or an interface in bounds is too large, the program can't be typed (`untypable`). Where each
/// interface is in bounds and each sending variable of a signature has a derivable word, only want of memory keeps a program that can
/// be typed from having a solution (`complete`).
pub fn solve(alloc: Global, program: &Program, problem: &Problem) -> Result<Solution, SolveError>
    requires well { WellFormed (program_view program.now) }
    requires problem { IsProblemOf program.now problem.now }
    requires enough { IsEnough (program_view program.now) }
    ensures exact { IsAnswer (program_view program.now) result }
    ensures smallest { IfErr result (IsSmallest (program_view program.now)) }
    ensures untypable { IfErr result (IsUntypable (program_view program.now)) }
    ensures complete { IfErr result (IsComplete (program_view program.now)) }
{
    answer_laws();
    refusal_laws();
    answer(alloc, program, problem)
}

/// The right answer.
fn answer(alloc: Global, program: &Program, problem: &Problem) -> Result<Solution, SolveError>
    requires well { WellFormed (program_view program.now) }
    requires problem { IsProblemOf program.now problem.now }
    requires enough { IsEnough (program_view program.now) }
    ensures { IsBestAnswer (program_view program.now) result }
{
    match first_unusable(alloc, program, problem)? {
        Some(variable) => Err(SolveError::Unusable { variable }),
        None => answer_usable(alloc, program, problem),
    }
}

/// The right answer where each sending variable of a signature has a derivable word.
fn answer_usable(
    alloc: Global,
    program: &Program,
    problem: &Problem,
) -> Result<Solution, SolveError>
    requires well { WellFormed (program_view program.now) }
    requires problem { IsProblemOf program.now problem.now }
    requires enough { IsEnough (program_view program.now) }
    requires usable { AllUsable (program_view program.now) }
    ensures { IsBestAnswer (program_view program.now) result }
{
    refusal_laws();
    let interfaces = program.interfaces.len();
    if interfaces > u32::MAX as usize {
        return Err(SolveError::NoMemory);
    }
    let index = Index::of(alloc, interfaces, problem)?;
    let mut state = begun(alloc, problem)?;
    for interface in 0..interfaces as u32 {
        state = step(alloc, program, problem, &index, state, interface)?;
    }
    finished(state)
}

/// What is known with one more interface.
fn step(
    alloc: Global,
    program: &Program,
    problem: &Problem,
    index: &Index,
    state: Progress,
    interface: u32,
) -> Result<Progress, SolveError>
    requires well { WellFormed (program_view program.now) }
    requires problem { IsProblemOf program.now problem.now }
    requires enough { IsEnough (program_view program.now) }
    requires index { IsIndexOf problem.now index.now }
    requires as_many { length index.now.constraints ≡ length program.now.interfaces }
    requires there { interface < length program.now.interfaces }
    requires state { Stands (program_view program.now) interface state }
    ensures stands { IfOk result (Stands (program_view program.now) (interface + 1)) }
    ensures refusal { IfErr result (IsBestRefusal (program_view program.now)) }
{
    index_law();
    let form = interface_form(alloc, program, problem, index, interface)?;
    let variables = index.variables_of(interface as usize);
    took(state, interface, variables, form)
}
