// The run of the program of an input, if it is accepted.
ghost use Rattle.std.specs.Prelude.{◌≡◌, ◌<◌, ℕ, List, length, map, IfOk};
ghost use Rattle.pat_core.specs.Views.{program_view};
ghost use Rattle.pat_semantics_spec.specs.WellFormed.{WellFormed};
ghost use Rattle.pat_semantics_spec.specs.Configs.{Config};
ghost use Rattle.pat_semantics_spec.specs.Runs.{IsHistory};
ghost use Rattle.pat_type_system_spec.specs.Typings.{IsTypable};
ghost use Rattle.pat_reduce.specs.Views.{entry_view};
ghost use Rattle.pat_run.specs.single.Gives.{outcome_view};
ghost use Rattle.pat_run.specs.options.Options.{IsWithin};
ghost use Rattle.pat_input.specs.Inputs.{IsRead};
ghost use Rattle.pat_run.specs.single.Runners.{IsRunner};
ghost use Rattle.pat_history.specs.run_reports.Remains.{remains_of};
ghost use Rattle.pat_typecheck.specs.Checks.{IsChecked};
ghost use Rattle.pat_command_run.specs.Allowed as allowed;
ghost use Rattle.pat_command_run.specs.Allowed.{AllowedRun, RunShows, EndsWith};
ghost use Rattle.pat_limits.specs.Limits.{number_count};

use pat_core::Program;
use pat_derivations::Derivation;
use pat_front::{Answer, Status};
use pat_history::{Remains, replay_text_of, text_of};
use pat_input::Input;
use pat_reduce::Entry;
use pat_run::{Finished, Outcome, RunOptions};
use pat_sequences::{Text, let_go};
use pat_typecheck::{Checked, check_input};
use pat_typed_program::Accepted;
use std::alloc::{AllocError, Global};

/// How much of a run is told.
#[derive(Clone, Copy, Debug, PartialEq, Eq)]
pub enum Detail {
    /// Its history, what it printed, and how it ended.
    Whole,
    /// What it printed, and how it ended.
    Summary,
}

/// What a run with these options answers on this input, where a program is run so, and so much of the run is told.
pub fn answer_run<F: Fn(Accepted, RunOptions) -> Result<Finished, AllocError>>(
    alloc: Global,
    run: &F,
    detail: Detail,
    options: RunOptions,
    input: Input,
) -> Result<Answer, AllocError>
    requires runner { IsRunner (F.pre run.now) (F.post run.now) }
    requires read { (bytes : List ℕ) × IsRead bytes input }
    requires within { IsWithin options }
    ensures { (bytes : List ℕ) → IsRead bytes input → IfOk result (λ a. AllowedRun detail options bytes a.text.items a.status) }
{
    let found = check_input(alloc, input)?;
    answer_of(alloc, run, detail, options, found)
}

fn answer_of<F: Fn(Accepted, RunOptions) -> Result<Finished, AllocError>>(
    alloc: Global,
    run: &F,
    detail: Detail,
    options: RunOptions,
    found: Checked,
) -> Result<Answer, AllocError>
    requires runner { IsRunner (F.pre run.now) (F.post run.now) }
    requires checked { (bytes : List ℕ) × IsChecked bytes found }
    requires within { IsWithin options }
    ensures { (bytes : List ℕ) → IsChecked bytes found → IfOk result (λ a. AllowedRun detail options bytes a.text.items a.status) }
{
    match found {
        Checked::Accepted(program, derivation) => {
            run_accepted(alloc, run, detail, options, program, derivation)
        }
        Checked::Refused(answer) => Ok(answer),
    }
}

// The run of a program that can be typed; the derivation says so, and isn't needed any more.
fn run_accepted<F: Fn(Accepted, RunOptions) -> Result<Finished, AllocError>>(
    alloc: Global,
    run: &F,
    detail: Detail,
    options: RunOptions,
    program: Program,
    derivation: Derivation,
) -> Result<Answer, AllocError>
    requires runner { IsRunner (F.pre run.now) (F.post run.now) }
    requires well { WellFormed (program_view program) }
    requires typable { IsTypable (program_view program) }
    requires within { IsWithin options }
    ensures { IfOk result (λ a. RunShows (program_view program) detail options a.text.items a.status) }
{
    let_go(derivation);
    run_program(alloc, run, detail, options, Accepted::of(program))
}

// The text of an accepted program's run, and its status.
fn run_program<F: Fn(Accepted, RunOptions) -> Result<Finished, AllocError>>(
    alloc: Global,
    run: &F,
    detail: Detail,
    options: RunOptions,
    accepted: Accepted,
) -> Result<Answer, AllocError>
    requires runner { IsRunner (F.pre run.now) (F.post run.now) }
    requires within { IsWithin options }
    ensures { IfOk result (λ a. RunShows (program_view accepted) detail options a.text.items a.status) }
{
    let finished = run(accepted, options)?;
    let remains = finished.machine.remains()?;
    let entries = finished.machine.history();
    let printed = finished.machine.printed();
    let text = told(alloc, detail, entries, printed, &remains, finished.outcome)?;
    Ok(Answer {
        text,
        status: status_of(finished.outcome),
    })
}

// The text that tells so much of a run.
fn told(
    alloc: Global,
    detail: Detail,
    entries: &[Entry],
    printed: &[Text],
    remains: &Remains,
    outcome: Outcome,
) -> Result<Vec<u8>, AllocError>
    requires history { IsHistory (map entry_view entries.now) }
    requires few { length entries.now < number_count }
    ensures { (c : Config) → c.printed ≡ printed.now → remains_of c ≡ remains.now → IfOk result (λ t. t.items ≡ allowed.told detail (map entry_view entries.now) c (outcome_view outcome)) }
{
    match detail {
        Detail::Whole => text_of(alloc, entries, printed, remains, outcome),
        Detail::Summary => replay_text_of(alloc, entries, printed, remains, Some(outcome)),
    }
}

fn status_of(outcome: Outcome) -> Status
    ensures { EndsWith (outcome_view outcome) result }
{
    match outcome {
        Outcome::Done => Status::Ok,
        Outcome::Waiting => Status::Waiting,
        Outcome::Full => Status::Full,
        Outcome::Budget => Status::Budget,
    }
}
