// A valid derivation of a program: inferred, solved and judged.
ghost use Rattle.std.specs.Prelude.{◌≡◌, IfOk, OnOk, IfErr, IsTrue, IsFalse};
ghost use Rattle.pat_semantics_spec.specs.WellFormed.{WellFormed};
ghost use Rattle.pat_type_system_spec.specs.Typings.{IsTypable};
ghost use Rattle.pat_derivation_spec.specs.Validity.{IsValid};
ghost use Rattle.pat_core.specs.Views.{program_view};
ghost use Rattle.pat_derivations.specs.Views.{derivation_view};
ghost use Rattle.pat_infer_problems.specs.Problems.{IsProblemOf, IsEnough};
ghost use Rattle.pat_solve_bounds.specs.results.Views.{IsSolution};
ghost use Rattle.pat_typecheck.specs.Reasons.{IsMade};
ghost use Rattle.pat_typecheck.specs.Explains.{Explains};
ghost use Rattle.pat_typecheck.specs.declared.accepting.Unaccepted.TheVariants.{NoMemory};

use crate::explaining::explained;
use pat_core::Program;
use pat_derivation_laws::first_bad_laws;
use pat_derivations::Derivation;
use pat_front::Reason;
use pat_infer::constraints;
use pat_infer_problems::{InferError, Problem};
use pat_judge::judge;
use pat_solve::solve;
use pat_solve_bounds::Solution;
use pat_solve_derivation::derivation_of;
use std::alloc::{AllocError, Global};

/// Why there is no derivation.
#[derive(Drop)]
pub enum Unaccepted {
    /// The first reason, and what its line says behind it.
    Refused(Reason, Vec<u8>),
    NoMemory,
}

impl From<AllocError> for Unaccepted {
    ghost from_gives = { λ _ e. e ≡ NoMemory };

    fn from(_: AllocError) -> Self {
        Unaccepted::NoMemory
    }
}

/// A valid derivation of the well-formed program, made of what inference and solving find. That it is valid is what the judge
/// says.
pub fn accept(alloc: Global, program: &Program) -> Result<Derivation, Unaccepted>
    requires { WellFormed (program_view program.now) }
    ensures made { IfOk result (λ d. IsMade (program_view program.now) (derivation_view d)) }
    ensures typable { OnOk result (IsTypable (program_view program.now)) }
    ensures refused { IfErr result (Explains program.now) }
{
    let problem = problem_of(alloc, program)?;
    let solution = solution_of(alloc, program, &problem)?;
    Ok(derivation_by(alloc, program, problem, solution)?)
}

/// The program's problem.
fn problem_of(alloc: Global, program: &Program) -> Result<Problem, Unaccepted>
    requires { WellFormed (program_view program.now) }
    ensures problem { IfOk result (IsProblemOf program.now) }
    ensures enough { OnOk result (IsEnough (program_view program.now)) }
    ensures refused { IfErr result (Explains program.now) }
{
    match constraints(alloc, program) {
        Ok(problem) => Ok(problem),
        Err(InferError::Untypable { span, rule }) => Err(Unaccepted::Refused(
            Reason::Untypable(span, rule),
            Vec::new(alloc),
        )),
        Err(InferError::NoMemory) => Err(Unaccepted::NoMemory),
    }
}

/// A solution of the problem.
fn solution_of(alloc: Global, program: &Program, problem: &Problem) -> Result<Solution, Unaccepted>
    requires well { WellFormed (program_view program.now) }
    requires problem { IsProblemOf program.now problem.now }
    requires enough { IsEnough (program_view program.now) }
    ensures solution { IfOk result (IsSolution (program_view program.now)) }
    ensures refused { IfErr result (Explains program.now) }
{
    match solve(alloc, program, problem) {
        Ok(solution) => Ok(solution),
        Err(error) => Err(explained(alloc, program, problem, error)),
    }
}

/// The derivation that is made of a solution, which the judge accepts.
#[tactic(auto, using(crate::proofs::Told::derived_made))]
fn derivation_by(
    alloc: Global,
    program: &Program,
    problem: Problem,
    solution: Solution,
) -> Result<Derivation, AllocError>
    requires well { WellFormed (program_view program.now) }
    requires problem { IsProblemOf program.now problem }
    requires enough { IsEnough (program_view program.now) }
    requires solution { IsSolution (program_view program.now) solution }
    ensures made { IfOk result (λ d. IsMade (program_view program.now) (derivation_view d)) }
    ensures typable { OnOk result (IsTypable (program_view program.now)) }
{
    let derivation = derivation_of(alloc, program, problem, solution)?;
    match has_passed(alloc, program, &derivation) {
        Ok(true) => Ok(derivation),
        // What is made of a solution is valid, and the judge accepts that.
        Ok(false) => unreachable!(),
        Err(AllocError) => Err(AllocError),
    }
}

/// Whether the judge accepts a derivation, whoever made it: only then is the program known to be typable.
fn has_passed(alloc: Global, program: &Program, derivation: &Derivation) -> Result<bool, AllocError>
    requires { WellFormed (program_view program.now) }
    ensures typable { IfOk result (λ b. IsTrue b → IsTypable (program_view program.now)) }
    ensures refused { IfOk result (λ b. IsFalse b → IsValid (program_view program.now) (derivation_view derivation.now) → ⊥) }
{
    first_bad_laws();
    match judge(alloc, program, derivation)? {
        None => Ok(true),
        Some(_) => Ok(false),
    }
}
