// The rules of a checkpoint, one after another.
ghost use Rattle.pat_semantics_spec.specs.WellFormed.{WellFormed};
ghost use Rattle.pat_derivation_spec.specs.Validity.{IsValid};
ghost use Rattle.pat_checkpoint_spec.specs.Checked.{broken_check};
ghost use Rattle.pat_core.specs.Views.{program_view};
ghost use Rattle.pat_derivations.specs.Views.{derivation_view};
ghost use Rattle.pat_checkpoint_data.specs.Views.{checkpoint_view};
ghost use Rattle.pat_checkpoint_checks.specs.Answers.{Examined};

use crate::rules::CheckError;
use pat_certificate_checks::plain_values;
use pat_checkpoint_balances::{balances_hold, holders_hold, messages_hold, sides_of};
use pat_checkpoint_data::Checkpoint;
use pat_checkpoint_numbers::{mailboxes_differ, numbers_hold};
use pat_checkpoint_parts::{kinds_hold, order_holds};
use pat_checkpoint_rules::CheckRule;
use pat_core::Program;
use pat_derivations::Derivation;
use std::alloc::Global;

/// Whether the checkpoint of the well-formed program breaks no rule, with the typing of the valid derivation; and otherwise the
/// first rule that it breaks.
#[tactic(auto, using(crate::proofs::Breaking::kinds_do_fit))]
pub fn examine(
    alloc: Global,
    program: &Program,
    derivation: &Derivation,
    checkpoint: &Checkpoint,
) -> Result<(), CheckError>
    requires well { WellFormed (program_view program.now) }
    requires valid { IsValid (program_view program.now) (derivation_view derivation.now) }
    ensures { Examined (broken_check (program_view program.now) (derivation_view derivation.now) (checkpoint_view checkpoint.now)) result }
{
    let config = &checkpoint.config;
    if !numbers_hold(config) {
        return Err(CheckError::Bad(CheckRule::Numbers));
    }
    let plain = plain_values(alloc, derivation)?;
    if !kinds_hold(alloc, program, derivation, plain.as_slice(), checkpoint)? {
        return Err(CheckError::Bad(CheckRule::Kinds));
    }
    if !mailboxes_differ(alloc, config)? {
        return Err(CheckError::Bad(CheckRule::Distinct));
    }
    if !order_holds(alloc, program, derivation, config)? {
        return Err(CheckError::Bad(CheckRule::Order));
    }
    let sides = sides_of(alloc, program, derivation, checkpoint)?;
    if !holders_hold(&sides) {
        return Err(CheckError::Bad(CheckRule::Holder));
    }
    if !messages_hold(program, checkpoint) {
        return Err(CheckError::Bad(CheckRule::Messages));
    }
    if !balances_hold(
        alloc,
        program,
        derivation,
        plain.as_slice(),
        checkpoint,
        &sides,
    )? {
        return Err(CheckError::Bad(CheckRule::Balance));
    }
    Ok(())
}
