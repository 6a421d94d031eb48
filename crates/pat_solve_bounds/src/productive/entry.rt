// The first unusable variable of a problem.
ghost use Rattle.std.specs.Prelude.{◌≡◌, ◌<◌, ◌≤◌, ◌↔◌, ℕ, length, IfOk, IfSome, IfNone, IsTrue};
ghost use Rattle.std.specs.List.{AllByRecursion};
ghost use Rattle.pat_semantics_spec.specs.Programs.{Sending};
ghost use Rattle.pat_infer_spec.specs.Shapes.{ConstraintFits};
ghost use Rattle.pat_infer_spec.specs.Walk.{inferred, all_vars};
ghost use Rattle.pat_solve_spec.specs.Answers.{IsUnusable, AllUsable};
ghost use Rattle.pat_core.specs.Views.{program_view};
ghost use Rattle.pat_primitives.specs.Views.{polarity_view};
ghost use Rattle.pat_infer_problems.specs.Problems.{IsProblemOf};
ghost use Rattle.pat_solve_bounds.specs.productive.Found.{IsOpen, IsFirstOpen, NoneOpen};

use crate::productive::counting::count_omitted;
use crate::productive::spreading::usable_variables;
use crate::productive::testing::flag;
use pat_core::Program;
use pat_infer_problems::{Problem, VarDecl};
use pat_primitives::Polarity;
use std::alloc::{AllocError, Global};

/// The number, counted from 1, of the first sending variable of a signature for which no word is derivable; `None` exactly where
/// each has one.
pub fn first_unusable(
    alloc: Global,
    program: &Program,
    problem: &Problem,
) -> Result<Option<u32>, AllocError>
    requires problem { IsProblemOf program.now problem.now }
    requires sides { let p = program_view program.now in AllByRecursion (ConstraintFits p (all_vars p)) (inferred p).constraints }
    ensures some { let p = program_view program.now in
        IfOk result (λ found. IfSome found (λ k. IsUnusable p k × ((j : ℕ) → j < k → IsUnusable p j → ⊥))) }
    ensures none { let p = program_view program.now in IfOk result (λ found. IfNone found (AllUsable p)) }
{
    let vars = problem.vars.as_slice();
    let total = vars.len() + 1;
    let flags = usable_variables(alloc, problem.constraints.as_slice(), total)?;
    let count = count_omitted(program.functions.as_slice());
    match first_open(vars, flags.as_slice(), count) {
        None => Ok(None),
        Some(place) => match u32::try_from(place + 1) {
            Ok(number) => Ok(Some(number)),
            Err(_) => Err(AllocError),
        },
    }
}

/// The place of the first of so many variables that is sending and has no word.
fn first_open(vars: &[VarDecl], flags: &[bool], count: usize) -> Option<usize>
    requires { count ≤ length vars.now }
    ensures some { IfSome result (IsFirstOpen vars.now flags.now count) }
    ensures none { IfNone result (NoneOpen vars.now flags.now count) }
{
    for place in 0..count {
        if is_open(vars, flags, place) {
            return Some(place);
        }
    }
    None
}

/// Whether the variable at the place is sending and has no word.
fn is_open(vars: &[VarDecl], flags: &[bool], place: usize) -> bool
    requires { place < length vars.now }
    ensures { IsTrue result ↔ IsOpen vars.now flags.now place }
{
    is_sending(vars[place].polarity) && !flag(flags, place + 1)
}

fn is_sending(polarity: Polarity) -> bool
    ensures { IsTrue result ↔ (polarity_view polarity ≡ Sending) }
{
    match polarity {
        Polarity::Sending => true,
        Polarity::Receiving => false,
    }
}
