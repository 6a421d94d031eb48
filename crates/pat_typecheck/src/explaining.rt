// Why a problem isn't solved, by the program's places and names.
ghost use Rattle.std.specs.Prelude.{◌≡◌, ◌-◌, slice_get, option_map, option_copied, IfOk};
ghost use Rattle.pat_semantics_spec.specs.WellFormed.{WellFormed};
ghost use Rattle.pat_bags.specs.Views.{word_of};
ghost use Rattle.pat_core.specs.Views.{program_view};
ghost use Rattle.pat_infer_problems.specs.Problems.{IsProblemOf, IsEnough};
ghost use Rattle.pat_infer_problems.specs.Places.{span_or};
ghost use Rattle.pat_infer_problems.specs.Views.{constraint_view};
ghost use Rattle.pat_solve_bounds.specs.results.Views.{IsRefusal, IsUntypable, IsComplete};
ghost use Rattle.pat_solve.specs.Smallest.{IsSmallest};
ghost use Rattle.pat_typecheck.specs.Explains.{Explains, IsRefutedBy};

use crate::accepting::Unaccepted;
use crate::words::{refuted_words, too_large_words};
use pat_bags::Bag;
use pat_core::Program;
use pat_front::Reason;
use pat_infer_problems::{Constraint, Problem};
use pat_solve_bounds::SolveError;
use pat_solve_derivation::refusal_laws;
use pat_syntax::Span;
use std::alloc::{AllocError, Global};

/// The reason that an error is, and what its line says behind it.
pub fn explained(
    alloc: Global,
    program: &Program,
    problem: &Problem,
    error: SolveError,
) -> Unaccepted
    requires well { WellFormed (program_view program.now) }
    requires problem { IsProblemOf program.now problem.now }
    requires enough { IsEnough (program_view program.now) }
    requires refusal { IsRefusal (program_view program.now) error }
    requires smallest { IsSmallest (program_view program.now) error }
    requires untypable { IsUntypable (program_view program.now) error }
    requires complete { IsComplete (program_view program.now) error }
    ensures { Explains program.now result }
{
    match explain(alloc, program, problem, &error) {
        Ok(refusal) => refusal,
        Err(AllocError) => Unaccepted::NoMemory,
    }
}

fn explain(
    alloc: Global,
    program: &Program,
    problem: &Problem,
    error: &SolveError,
) -> Result<Unaccepted, AllocError>
    requires well { WellFormed (program_view program.now) }
    requires problem { IsProblemOf program.now problem.now }
    requires enough { IsEnough (program_view program.now) }
    requires refusal { IsRefusal (program_view program.now) error.now }
    requires smallest { IsSmallest (program_view program.now) error.now }
    requires untypable { IsUntypable (program_view program.now) error.now }
    requires complete { IsComplete (program_view program.now) error.now }
    ensures { IfOk result (Explains program.now) }
{
    match error {
        SolveError::Unusable { variable } => Ok(Unaccepted::Refused(
            Reason::Unusable(variable_span(problem, *variable)),
            Vec::new(alloc),
        )),
        SolveError::TooLarge { interface } => Ok(Unaccepted::Refused(
            Reason::TooLarge(*interface),
            too_large_words(alloc, program, *interface)?,
        )),
        SolveError::Refuted {
            constraint,
            refutation,
        } => refuted(alloc, program, problem, *constraint, &refutation.word),
        SolveError::Undecided { constraint } => Ok(Unaccepted::Refused(
            Reason::Undecided(constraint_span(problem, *constraint)),
            Vec::new(alloc),
        )),
        SolveError::NoMemory => Ok(Unaccepted::NoMemory),
    }
}

/// The reason of a refuted constraint, with its word and its right side.
fn refuted(
    alloc: Global,
    program: &Program,
    problem: &Problem,
    number: u32,
    word: &Bag,
) -> Result<Unaccepted, AllocError>
    requires well { WellFormed (program_view program.now) }
    requires problem { IsProblemOf program.now problem.now }
    requires enough { IsEnough (program_view program.now) }
    requires refuted { IsRefutedBy (program_view program.now) number (word_of word.now) }
    ensures { IfOk result (Explains program.now) }
{
    refusal_laws();
    match constraint_at(problem, number) {
        Some(constraint) => {
            let more = refuted_words(alloc, program, constraint, word)?;
            Ok(Unaccepted::Refused(Reason::Refuted(constraint.span), more))
        }
        // A constraint that is refuted is there.
        None => unreachable!(),
    }
}

/// Where a variable arises; the beginning of the text for one that isn't there.
fn variable_span(problem: &Problem, variable: u32) -> Span
    ensures { result ≡ span_or (option_map (λ v. v.span) (slice_get problem.now.vars (variable - 1))) }
{
    match problem
        .vars
        .as_slice()
        .get((variable as usize).saturating_sub(1))
    {
        Some(declared) => declared.span,
        None => Span { from: 0, to: 0 },
    }
}

/// Where a constraint arises; the beginning of the text for one that isn't there.
fn constraint_span(problem: &Problem, number: u32) -> Span
    ensures { result ≡ span_or (option_map (λ c. c.span) (slice_get problem.now.constraints number)) }
{
    match constraint_at(problem, number) {
        Some(constraint) => constraint.span,
        None => Span { from: 0, to: 0 },
    }
}

fn constraint_at(problem: &Problem, number: u32) -> Option<&Constraint>
    ensures { option_copied result ≡ slice_get problem.now.constraints number }
{
    problem.constraints.as_slice().get(number as usize)
}
