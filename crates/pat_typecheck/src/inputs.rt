// Whether the program of an input is accepted.
ghost use Rattle.std.specs.Prelude.{◌≡◌, ◌<◌, ℕ, List, IfOk, length};
ghost use Rattle.pat_parser_laws.specs.Counts.{tree_size};
ghost use Rattle.pat_tree.specs.Views.{tree_view};
ghost use Rattle.pat_core.specs.Views.{program_view};
ghost use Rattle.pat_resolver_spec.specs.Resolved.{IsResolved};
ghost use Rattle.pat_resolver_heads.specs.results.Views.{places_view};
ghost use Rattle.pat_input.specs.Inputs.{IsRead};
ghost use Rattle.pat_front.specs.Texts.{IsTreeText, Explains as ExplainsText};
ghost use Rattle.pat_typecheck.specs.Explains.{Explains};
ghost use Rattle.pat_typecheck.specs.Checks.{IsChecked, IsCheckedProgram, SaysReason};
ghost use Rattle.pat_limits.specs.Limits.{most_number};

use crate::accepting::{Unaccepted, accept};
use pat_core::Program;
use pat_derivations::Derivation;
use pat_front::{Answer, FrontError, Verdict, program_of, refused, tree_of, verdict_answer_with};
use pat_input::Input;
use pat_safety_laws::safety_laws;
use pat_tree::Tree;
use std::alloc::{AllocError, Global};

/// What an input comes to.
#[derive(Drop)]
pub enum Checked {
    /// The text of a program, with a valid derivation.
    Accepted(Program, Derivation),
    /// What is answered of any other text.
    Refused(Answer),
}

/// The program of an input with a valid derivation, or the line that refuses the input.
pub fn check_input(alloc: Global, input: Input) -> Result<Checked, AllocError>
    requires { (bytes : List ℕ) × IsRead bytes input }
    ensures { (bytes : List ℕ) → IsRead bytes input → IfOk result (IsChecked bytes) }
{
    match tree_of(alloc, input) {
        Ok((tree, end)) => check_tree_text(alloc, &tree, end),
        Err(error) => refused_text(alloc, error),
    }
}

// So of the tree of a text that has so many bytes.
fn check_tree_text(alloc: Global, tree: &Tree, end: u32) -> Result<Checked, AllocError>
    requires text { (bytes : List ℕ) × IsTreeText bytes (tree_view tree.now) × (end ≡ length bytes) }
    requires small { tree_size (tree_view tree.now) < most_number }
    ensures { (bytes : List ℕ) → IsTreeText bytes (tree_view tree.now) → end ≡ length bytes → IfOk result (IsChecked bytes) }
{
    match program_of(alloc, tree, end) {
        Ok(program) => check_program(alloc, program),
        Err(error) => refused_text(alloc, error),
    }
}

// So of a program.
fn check_program(alloc: Global, program: Program) -> Result<Checked, AllocError>
    requires { IsResolved (program_view program) (places_view program) }
    ensures { IfOk result (IsCheckedProgram program) }
{
    safety_laws();
    match accept(alloc, &program) {
        Ok(derivation) => Ok(Checked::Accepted(program, derivation)),
        Err(error) => refused_program(alloc, error, program),
    }
}

fn refused_program<T: Drop>(
    alloc: Global,
    error: Unaccepted,
    _program: T,
) -> Result<Checked, AllocError>
    ensures { IfOk result (SaysReason error) }
{
    match error {
        Unaccepted::Refused(reason, more) => Ok(Checked::Refused(verdict_answer_with(
            alloc,
            Verdict::Unaccepted(reason),
            more.as_slice(),
        )?)),
        Unaccepted::NoMemory => Err(AllocError),
    }
}

fn refused_text(alloc: Global, error: FrontError) -> Result<Checked, AllocError>
    ensures { (bytes : List ℕ) → ExplainsText bytes error → IfOk result (IsChecked bytes) }
{
    Ok(Checked::Refused(refused(alloc, error)?))
}
