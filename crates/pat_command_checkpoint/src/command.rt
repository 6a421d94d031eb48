// The checkpoint that a run of the program of an input leads to, or a history behind a checkpoint, as text.
ghost use Rattle.std.specs.Prelude.{◌≡◌, ◌<◌, ◌≤◌, ◌++◌, ℕ, List, length, IfOk};
ghost use Rattle.std.specs.List.{AllByRecursion};
ghost use Rattle.pat_semantics_spec.specs.WellFormed.{WellFormed};
ghost use Rattle.pat_core.specs.Views.{program_view};
ghost use Rattle.pat_resolver_spec.specs.Places.{Places};
ghost use Rattle.pat_resolver_spec.specs.Resolved.{IsResolved};
ghost use Rattle.pat_derivation_spec.specs.Derivations.{Derivation as AnyDerivation};
ghost use Rattle.pat_derivation_spec.specs.Validity.{IsValid};
ghost use Rattle.pat_derivations.specs.Views.{derivation_view};
ghost use Rattle.pat_derivation_text_spec.specs.DerivationText.{derivation_text};
ghost use Rattle.pat_front.specs.declared.exit_answers.status.Status.TheVariants.{Ok};
ghost use Rattle.pat_typecheck.specs.Checks.{IsChecked};
ghost use Rattle.pat_reduce.specs.Views.{config_view};
ghost use Rattle.pat_checkpoint.specs.Certified.{CanBeCertified};
ghost use Rattle.pat_checkpoint.specs.Strings.{HasSpelledStrings};
ghost use Rattle.pat_command_checkpoint.specs.Allowed.{AllowedCheckpoint, AllowedRun, AnswersAt, AnswersProgram, HasReached};
ghost use Rattle.pat_limits.specs.Limits.{most_steps};

use crate::pieces::answer_piece;
use pat_checkpoint::{WriteError, started_law, write};
use pat_checkpoint_input::place_of_piece;
use pat_checkpoint_laws::resumed_laws;
use pat_checkpoint_run::{Resumed, run_from, start_checkpoint};
use pat_core::Program;
use pat_derivations::Derivation;
use pat_front::{Answer, Status, Verdict, verdict_answer};
use pat_input::lex_bytes;
use pat_reduce::Config;
use pat_reduce_values::Executable;
use pat_sequences::{Sequence, let_go};
use pat_typecheck::{Checked, check_input};
use std::alloc::{AllocError, Global};

/// What `checkpoint` answers on these bytes, where a run of a program alone may take so many steps.
pub fn answer_checkpoint(alloc: Global, steps: u32, bytes: &[u8]) -> Result<Answer, AllocError>
    requires { steps ≤ most_steps }
    ensures { IfOk result (λ a. AllowedCheckpoint steps bytes.now a.text.items a.status) }
{
    match place_of_piece(bytes) {
        Some(at) => answer_piece(alloc, bytes, at),
        None => answer_run(alloc, steps, bytes),
    }
}

// So of the text of a program alone.
fn answer_run(alloc: Global, steps: u32, bytes: &[u8]) -> Result<Answer, AllocError>
    requires { steps ≤ most_steps }
    ensures { IfOk result (λ a. AllowedRun steps bytes.now a.text.items a.status) }
{
    let input = lex_bytes(alloc, bytes)?;
    let found = check_input(alloc, input)?;
    answer_of(alloc, steps, found)
}

fn answer_of(alloc: Global, steps: u32, found: Checked) -> Result<Answer, AllocError>
    requires checked { (bytes : List ℕ) × IsChecked bytes found }
    requires within { steps ≤ most_steps }
    ensures { (bytes : List ℕ) → IsChecked bytes found → IfOk result (λ a. AllowedRun steps bytes a.text.items a.status) }
{
    match found {
        Checked::Accepted(program, derivation) => of_program(alloc, steps, program, &derivation),
        Checked::Refused(answer) => Ok(answer),
    }
}

// Runs the program from its start, and writes where that leads.
fn of_program(
    alloc: Global,
    steps: u32,
    program: Program,
    derivation: &Derivation,
) -> Result<Answer, AllocError>
    requires resolved { (q : Places) × IsResolved (program_view program) q }
    requires valid { IsValid (program_view program) (derivation_view derivation.now) }
    requires within { steps ≤ most_steps }
    ensures { IfOk result (λ a. AnswersProgram (program_view program) (derivation_view derivation.now) steps a.text.items a.status) }
{
    let code = executable(alloc, program)?;
    let resumed = run_program(alloc, &code, steps)?;
    answer_at(alloc, &code.program, derivation, resumed)
}

fn executable(alloc: Global, program: Program) -> Result<Executable, AllocError>
    requires { WellFormed (program_view program) }
    ensures { IfOk result (λ code. code.program ≡ program) }
{
    Executable::new(alloc, program)
}

// A run from the start with so many steps.
fn run_program(alloc: Global, code: &Executable, steps: u32) -> Result<Resumed, AllocError>
    requires well_formed { WellFormed (program_view code.now.program) }
    requires typed { (d : AnyDerivation) × IsValid (program_view code.now.program) d }
    requires within { steps ≤ most_steps }
    ensures { IfOk result (λ r. (d : AnyDerivation) → IsValid (program_view code.now.program) d
        → HasReached (program_view code.now.program) d steps r) }
{
    resumed_laws();
    let start = start_checkpoint(alloc, code)?;
    run_from(alloc, code, start, steps as u64)
}

// The answer where a run led there.
fn answer_at(
    alloc: Global,
    program: &Program,
    derivation: &Derivation,
    resumed: Resumed,
) -> Result<Answer, AllocError>
    requires resolved { (q : Places) × IsResolved (program_view program.now) q }
    requires valid { IsValid (program_view program.now) (derivation_view derivation.now) }
    requires reached { (steps : ℕ) × HasReached (program_view program.now) (derivation_view derivation.now) steps resumed }
    ensures { (steps : ℕ) → HasReached (program_view program.now) (derivation_view derivation.now) steps resumed
        → IfOk result (λ a. AnswersProgram (program_view program.now) (derivation_view derivation.now) steps a.text.items a.status) }
{
    started_law();
    let (entries, config, interfaces, _) = resumed.into_parts();
    let_go(entries);
    written(alloc, program, derivation, config, interfaces)
}

/// The answer where a configuration of a program was come to, of which each live mailbox has one of these interfaces.
pub fn written(
    alloc: Global,
    program: &Program,
    derivation: &Derivation,
    config: Config,
    interfaces: Sequence<u32>,
) -> Result<Answer, AllocError>
    requires resolved { (q : Places) × IsResolved (program_view program.now) q }
    requires valid { IsValid (program_view program.now) (derivation_view derivation.now) }
    requires typed { CanBeCertified (program_view program.now) (derivation_view derivation.now) (config_view config) interfaces }
    requires there { AllByRecursion (λ i. i < length (program_view program.now).interfaces) interfaces }
    requires strings { HasSpelledStrings (config_view config) }
    ensures { IfOk result (λ a. AnswersAt (program_view program.now) (derivation_view derivation.now) (config_view config) interfaces
        a.text.items a.status) }
{
    match write(alloc, program, derivation, config, interfaces) {
        Ok(text) => joined(alloc, program, derivation, text.as_slice()),
        Err(WriteError::Unshown(line)) => verdict_answer(alloc, Verdict::Unshown(line)),
        Err(WriteError::NoMemory) => Err(AllocError),
    }
}

// The text of the derivation, and this one.
fn joined(
    alloc: Global,
    program: &Program,
    derivation: &Derivation,
    text: &[u8],
) -> Result<Answer, AllocError>
    ensures status { IfOk result (λ a. a.status ≡ Ok) }
    ensures text { IfOk result (λ a. a.text.items ≡ derivation_text (program_view program.now) (derivation_view derivation.now)
        ++ text.now) }
{
    let mut both = pat_deriv::write(alloc, program, derivation)?;
    both.extend_from_slice(text)?;
    Ok(Answer {
        text: both,
        status: Status::Ok,
    })
}
