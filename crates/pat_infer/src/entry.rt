// The problem of a program.
ghost use Rattle.std.specs.Prelude.{IfOk, OnOk, IfErr};
ghost use Rattle.pat_semantics_spec.specs.WellFormed.{WellFormed};
ghost use Rattle.pat_infer_spec.specs.Walk.{inferred};
ghost use Rattle.pat_core.specs.Views.{program_view};
ghost use Rattle.pat_infer_problems.specs.Results.{Refuses};
ghost use Rattle.pat_infer_problems.specs.Problems.{IsProblemOf, IsEnough};
ghost use Rattle.pat_infer.specs.Answers.{IsUntypable};

use crate::making::problem_of;
use pat_core::Program;
use pat_infer_laws::{enough_laws, found_laws, lossless_laws};
use pat_infer_problems::{InferError, Problem};
use std::alloc::Global;

/// The problem of a well-formed program: which inclusions between patterns a typing has to meet, by backward typing, from the uses
/// of each mailbox to where it is bound. An error is the first broken rule and where it is broken, by the name or the term in the
/// text, or want of memory.
///
/// Nothing is lost: a program that breaks a rule has no typing (`only`), and a solution of the problem in which the sending
/// variables of signatures have words is a typing (`enough`).
#[tactic(auto, using(crate::proofs::Answered::is_problem, crate::proofs::Answered::is_enough, crate::proofs::Answered::is_refused, crate::proofs::Answered::is_untypable))]
pub fn constraints(alloc: Global, program: &Program) -> Result<Problem, InferError>
    requires { WellFormed (program_view program.now) }
    ensures problem { IfOk result (IsProblemOf program.now) }
    ensures enough { OnOk result (IsEnough (program_view program.now)) }
    ensures untypable { IfErr result (λ e. Refuses program.now e (inferred (program_view program.now)).findings) }
    ensures only { IfErr result (IsUntypable (program_view program.now)) }
{
    lossless_laws();
    enough_laws();
    found_laws();
    problem_of(alloc, program)
}
