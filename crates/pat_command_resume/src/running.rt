// The run that goes on from a checked checkpoint, and its text.
ghost use Rattle.std.specs.Prelude.{◌≡◌, ◌≢◌, ◌<◌, ◌≤◌, ℕ, List, IfOk, IsTrue, length, map};
ghost use Rattle.pat_semantics_spec.specs.WellFormed.{WellFormed};
ghost use Rattle.pat_semantics_spec.specs.Runs.{IsHistory, EndFull};
ghost use Rattle.pat_derivation_spec.specs.Derivations.{Derivation};
ghost use Rattle.pat_core.specs.Views.{program_view};
ghost use Rattle.pat_reduce.specs.Views.{config_view, entry_view};
ghost use Rattle.pat_history.specs.run_reports.Gives.{outcome_view};
ghost use Rattle.pat_checkpoint_spec.specs.Checked.{IsChecked};
ghost use Rattle.pat_checkpoint_data.specs.Views.{checkpoint_view};
ghost use Rattle.pat_history.specs.run_reports.RunText.{run_text};
ghost use Rattle.pat_checkpoint_input.specs.CheckedTexts.{has_room};
ghost use Rattle.pat_command_resume.specs.Allowed.{EndsWith};
ghost use Rattle.pat_command_resume.specs.Gives.{ShowsFrom, TellsOf};
ghost use Rattle.pat_limits.specs.Limits.{most_steps, number_count};

use pat_checkpoint_data::Checkpoint;
use pat_checkpoint_laws::{checked_laws, turn_laws};
use pat_checkpoint_run::{Outcome, Resumed, run_from};
use pat_core::Program;
use pat_front::{Answer, Status};
use pat_history::{Remains, text_of};
use pat_reduce_values::Executable;
use pat_semantics_laws::outcome_laws;
use std::alloc::{AllocError, Global};

/// The text of the run that goes on from the checkpoint with so many steps, and its status.
pub fn go_on(
    alloc: Global,
    steps: u32,
    program: Program,
    checkpoint: Checkpoint,
) -> Result<Answer, AllocError>
    requires steps { steps ≤ most_steps }
    requires well_formed { WellFormed (program_view program) }
    requires checked { (d : Derivation) × IsChecked (program_view program) d (checkpoint_view checkpoint) }
    requires room { IsTrue (has_room (checkpoint_view checkpoint).config) }
    ensures { (d : Derivation) → IsChecked (program_view program) d (checkpoint_view checkpoint)
        → IfOk result (λ a. ShowsFrom (program_view program) d (checkpoint_view checkpoint) steps a.text.items a.status) }
{
    checked_laws();
    turn_laws();
    outcome_laws();
    let code = executable(alloc, program)?;
    let resumed = run_from(alloc, &code, checkpoint, steps as u64)?;
    told(alloc, &resumed)
}

fn executable(alloc: Global, program: Program) -> Result<Executable, AllocError>
    requires { WellFormed (program_view program) }
    ensures { IfOk result (λ code. code.program ≡ program) }
{
    Executable::new(alloc, program)
}

// The text of a run that went on, and its status.
fn told(alloc: Global, resumed: &Resumed) -> Result<Answer, AllocError>
    requires history { IsHistory (map entry_view resumed.now.entries) }
    requires few { length resumed.now.entries < number_count }
    requires ended { outcome_view resumed.now.outcome ≢ EndFull }
    ensures { IfOk result (TellsOf resumed.now) }
{
    let remains = Remains::of(alloc, &resumed.config)?;
    let entries = resumed.entries.as_slice();
    let printed = resumed.config.printed.as_slice();
    let text = text_of(alloc, entries, printed, &remains, resumed.outcome)?;
    Ok(Answer {
        text,
        status: status_of(resumed.outcome),
    })
}

fn status_of(outcome: Outcome) -> Status
    requires { outcome_view outcome ≢ EndFull }
    ensures { EndsWith (outcome_view outcome) result }
{
    match outcome {
        Outcome::Done => Status::Ok,
        Outcome::Waiting => Status::Waiting,
        Outcome::Budget => Status::Budget,
        // There is no limit on messages.
        Outcome::Full => unreachable!(),
    }
}
