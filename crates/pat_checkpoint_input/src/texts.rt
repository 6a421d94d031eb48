// The texts of a derivation and of a checkpoint, read and looked at.
ghost use Rattle.std.specs.Prelude.{◌≡◌, ◌<◌, ◌≤◌, ◌+◌, length};
ghost use Rattle.pat_semantics_spec.specs.WellFormed.{WellFormed};
ghost use Rattle.pat_derivation_spec.specs.Validity.{IsValid};
ghost use Rattle.pat_core.specs.Views.{program_view};
ghost use Rattle.pat_derivations.specs.Views.{derivation_view};
ghost use Rattle.pat_reduce.specs.Views.{config_view};
ghost use Rattle.pat_checkpoint_data.specs.Views.{checkpoint_view};
ghost use Rattle.pat_input.specs.Inputs.{whole_limit};
ghost use Rattle.pat_checkpoint_input.specs.CheckedTexts as checked;
ghost use Rattle.pat_checkpoint_input.specs.Gives.{TextsGive, CheckpointGives, Judges, Examines};
ghost use Rattle.pat_limits.specs.Limits.{number_count};

use pat_checkpoint_checks::{CheckError, examine};
use pat_checkpoint_data::Checkpoint;
use pat_checkpoint_rules::CheckRule;
use pat_checkpoint_run::MOST_NEXT_NUMBER;
use pat_core::Program;
use pat_derivations::Derivation;
use pat_front::{FrontError, Verdict};
use pat_judge::judge;
use pat_reduce::Config;
use pat_texts::TextError;
use std::alloc::Global;

/// A valid derivation, and the checkpoint that is checked by it, where both texts are read. The first byte of the derivation's text has
/// this offset, and the checkpoint's text begins at its end.
pub fn checked_texts(
    alloc: Global,
    program: &Program,
    derivation: &[u8],
    checkpoint: &[u8],
    from: u32,
) -> Result<(Derivation, Checkpoint), FrontError>
    requires well_formed { WellFormed (program_view program.now) }
    requires interfaces { length program.now.interfaces < number_count }
    requires room { from + length derivation.now + length checkpoint.now ≤ whole_limit }
    ensures { TextsGive (program_view program.now) from derivation.now checkpoint.now result }
{
    let at = from + derivation.len() as u32;
    match pat_deriv::read(alloc, program, derivation, from) {
        Ok(shown) => match checked_text(alloc, program, &shown, checkpoint, at) {
            Ok(checkpoint) => Ok((shown, checkpoint)),
            Err(error) => Err(error),
        },
        Err(TextError::BadText(offset)) => Err(FrontError::Refused(Verdict::BadText(offset))),
        Err(TextError::NoMemory) => Err(FrontError::NoMemory),
    }
}

// The checkpoint of a text, whose first byte has this offset, checked by the derivation.
fn checked_text(
    alloc: Global,
    program: &Program,
    derivation: &Derivation,
    text: &[u8],
    at: u32,
) -> Result<Checkpoint, FrontError>
    requires well_formed { WellFormed (program_view program.now) }
    requires interfaces { length program.now.interfaces < number_count }
    requires room { at + length text.now ≤ whole_limit }
    ensures { CheckpointGives (program_view program.now) (derivation_view derivation.now) at text.now result }
{
    match pat_checkpoint_text::read(alloc, program, text, at) {
        Ok(checkpoint) => match judged(alloc, program, derivation, &checkpoint) {
            Ok(()) => Ok(checkpoint),
            Err(error) => Err(error),
        },
        Err(TextError::BadText(offset)) => Err(FrontError::Refused(Verdict::BadText(offset))),
        Err(TextError::NoMemory) => Err(FrontError::NoMemory),
    }
}

// Whether the derivation is valid, and the checkpoint is checked by it.
fn judged(
    alloc: Global,
    program: &Program,
    derivation: &Derivation,
    checkpoint: &Checkpoint,
) -> Result<(), FrontError>
    requires { WellFormed (program_view program.now) }
    ensures { Judges (program_view program.now) (derivation_view derivation.now) (checkpoint_view checkpoint.now) result }
{
    match judge(alloc, program, derivation) {
        Ok(None) => examined(alloc, program, derivation, checkpoint),
        Ok(Some(found)) => Err(FrontError::Refused(Verdict::Rejected(found.node, found.rule))),
        Err(_) => Err(FrontError::NoMemory),
    }
}

// Whether the checkpoint has room, and is checked by a valid derivation.
fn examined(
    alloc: Global,
    program: &Program,
    derivation: &Derivation,
    checkpoint: &Checkpoint,
) -> Result<(), FrontError>
    requires well_formed { WellFormed (program_view program.now) }
    requires valid { IsValid (program_view program.now) (derivation_view derivation.now) }
    ensures { Examines (program_view program.now) (derivation_view derivation.now) (checkpoint_view checkpoint.now) result }
{
    if !has_room(&checkpoint.config) {
        return Err(FrontError::Refused(Verdict::BadCheckpoint(CheckRule::Numbers)));
    }
    match examine(alloc, program, derivation, checkpoint) {
        Ok(()) => Ok(()),
        Err(CheckError::Bad(rule)) => Err(FrontError::Refused(Verdict::BadCheckpoint(rule))),
        Err(CheckError::NoMemory) => Err(FrontError::NoMemory),
    }
}

// Whether a run can go on from these next numbers.
fn has_room(config: &Config) -> bool
    ensures { result ≡ checked.has_room (config_view config.now) }
{
    config.next_thread <= MOST_NEXT_NUMBER
        && (config.next_mailbox <= MOST_NEXT_NUMBER && config.next_message <= MOST_NEXT_NUMBER)
}
