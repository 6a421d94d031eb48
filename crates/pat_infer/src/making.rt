// The functions of a program, walked one after another.
ghost use Rattle.std.specs.Prelude.{◌≡◌, ◌+◌, ◌<◌, [], length, Some, slice_get, IfOk, OnOk};
ghost use Rattle.pat_semantics_spec.specs.Programs.{Function as GhostFunction};
ghost use Rattle.pat_infer_spec.specs.Walk.{walk_function as found_of_function, walk_functions as found_of_functions};
ghost use Rattle.pat_core.specs.Views.{program_view};
ghost use Rattle.pat_infer.specs.walk.Walking.{IsSigned, Finds};
ghost use Rattle.pat_infer.specs.Answers.{Answers, IsEmpty};

use crate::walk::{Signed, walk_function};
use pat_core::Program;
use pat_infer_problems::{InferError, Problem, open_signatures};
use pat_primitives::Base;
use pat_sequences::Sequence;
use pat_types::{NodeType, TypeOf};
use std::alloc::{AllocError, Global};

/// The problem of any program, or the first broken rule.
pub fn problem_of(alloc: Global, program: &Program) -> Result<Problem, InferError>
    ensures { Answers program.now result }
{
    let mut problem = empty_problem(alloc, program)?;
    let signatures = open_signatures(alloc, program, &mut problem)?;
    let signed = Signed {
        program,
        signatures: signatures.as_slice(),
    };
    walk_all(alloc, &signed, &mut problem)?;
    Ok(problem)
}

/// A problem with a place for each node.
fn empty_problem(alloc: Global, program: &Program) -> Result<Problem, AllocError>
    ensures { IfOk result (IsEmpty program.now) }
{
    let mut nodes = Sequence::new(alloc);
    for _ in 0..program.nodes.len() {
        nodes.push(NodeType {
            result: TypeOf::Base(Base::Unit),
            env: Sequence::new(alloc),
        })?;
    }
    Ok(Problem {
        vars: Sequence::new(alloc),
        constraints: Sequence::new(alloc),
        nodes,
    })
}

/// Walks the functions in order.
fn walk_all(alloc: Global, signed: &Signed, problem: &mut Problem) -> Result<(), InferError>
    requires { IsSigned signed.now }
    ensures { Finds signed.now.program.now problem.old problem.new result
        (found_of_functions (program_view signed.now.program.now) 0 (1 + length problem.old.vars)
        (program_view signed.now.program.now).functions) }
{
    for number in 0..signed.program.functions.len() {
        walk_at(alloc, signed, number, problem)?;
    }
    Ok(())
}

/// Walks the function of this number.
fn walk_at(
    alloc: Global,
    signed: &Signed,
    number: usize,
    problem: &mut Problem,
) -> Result<(), InferError>
    requires signed { IsSigned signed.now }
    requires within { number < length signed.now.program.now.functions }
    ensures { (g : GhostFunction) → slice_get (program_view signed.now.program.now).functions number ≡ Some g
        → Finds signed.now.program.now problem.old problem.new result
        (found_of_function (program_view signed.now.program.now) number g (1 + length problem.old.vars)) }
{
    let function = &signed.program.functions.as_slice()[number];
    let signature = &signed.signatures[number];
    walk_function(alloc, signed, number, function, signature, problem)
}
