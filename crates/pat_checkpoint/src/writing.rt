// A typed configuration as text.
ghost use Rattle.std.specs.Prelude.{◌≡◌, ◌<◌, ℕ, List, length, IfOk, IfErr};
ghost use Rattle.std.specs.List.{AllByRecursion};
ghost use Rattle.pat_resolver_spec.specs.Places.{Places};
ghost use Rattle.pat_resolver_spec.specs.Resolved.{IsResolved};
ghost use Rattle.pat_derivation_spec.specs.Validity.{IsValid};
ghost use Rattle.pat_core.specs.Views.{program_view};
ghost use Rattle.pat_derivations.specs.Views.{derivation_view};
ghost use Rattle.pat_reduce.specs.Views.{config_view};
ghost use Rattle.pat_semantics_spec.specs.Programs.{Program as GhostProgram};
ghost use Rattle.pat_semantics_spec.specs.Configs.{Config as GhostConfig};
ghost use Rattle.pat_derivation_spec.specs.Derivations.{Derivation as GhostDerivation};
ghost use Rattle.pat_semantics_spec.specs.Orders.{AscendsFrom};
ghost use Rattle.pat_checkpoint_data.specs.Views.{checkpoint_view};
ghost use Rattle.pat_checkpoint_spec.specs.Checkpoints.{IsAligned};
ghost use Rattle.pat_checkpoint_spec.specs.text.CheckpointText.{checkpoint_text};
ghost use Rattle.pat_checkpoint_print.specs.Ranges.{IsInRange};
ghost use Rattle.pat_checkpoint.specs.declared.error.WriteError.TheVariants.{NoMemory};
ghost use Rattle.pat_checkpoint_certificates.specs.Certified.{CanBeCertified, IsUnshown};
ghost use Rattle.pat_checkpoint.specs.Strings.{HasSpelledStrings};
ghost use Rattle.pat_checkpoint.specs.Writing.{IsWritten, IsRefusal};

use crate::WriteError;
use pat_checkpoint_certificates::{CertifyError, certify};
use pat_checkpoint_data::Checkpoint;
use pat_checkpoint_laws::{checked_laws, lines_law, strings_law, text_is_read_law};
use pat_checkpoint_print::print;
use pat_core::Program;
use pat_derivations::Derivation;
use pat_reduce::Config;
use pat_sequences::Sequence;
use std::alloc::Global;

/// The text of the checkpoint of a configuration that a valid derivation types, where its live mailboxes have these interfaces: without the
/// printed lines, and with the certificates that show it typed. It is read again as this checkpoint.
///
/// There is none where the inclusion that a line needs can't be shown: it isn't trivial, isn't directly covered by closed forms that
/// aren't too large, and isn't shown by a grid with the bound that solving takes.
pub fn write(
    alloc: Global,
    program: &Program,
    derivation: &Derivation,
    config: Config,
    interfaces: Sequence<u32>,
) -> Result<Vec<u8>, WriteError>
    requires resolved { (q : Places) × IsResolved (program_view program.now) q }
    requires valid { IsValid (program_view program.now) (derivation_view derivation.now) }
    requires typed { CanBeCertified (program_view program.now) (derivation_view derivation.now) (config_view config) interfaces }
    requires there { AllByRecursion (λ i. i < length (program_view program.now).interfaces) interfaces }
    requires strings { HasSpelledStrings (config_view config) }
    ensures written { IfOk result (λ text. IsWritten (program_view program.now) (derivation_view derivation.now)
        (config_view config) interfaces text.items) }
    ensures unshown { IfErr result (IsRefusal (program_view program.now) (derivation_view derivation.now) (config_view config) interfaces) }
{
    checked_laws();
    strings_law();
    lines_law();
    text_is_read_law();
    match certify(alloc, program, derivation, config, interfaces) {
        Ok(checkpoint) => text_of(alloc, program, &checkpoint),
        Err(error) => Err(refusal_of(error)),
    }
}

/// The text of a checkpoint.
fn text_of(alloc: Global, program: &Program, checkpoint: &Checkpoint) -> Result<Vec<u8>, WriteError>
    requires aligned { IsAligned (checkpoint_view checkpoint.now) }
    requires order { AscendsFrom 0 checkpoint.now.config.live }
    ensures text { IfOk result (λ text. text.items ≡ checkpoint_text (program_view program.now) (checkpoint_view checkpoint.now)) }
    ensures range { IfOk result (λ text. IsInRange (checkpoint_view checkpoint.now)) }
    ensures refused { IfErr result (λ e. e ≡ NoMemory) }
{
    let text = print(alloc, program, checkpoint)?;
    Ok(text)
}

/// The same refusal. A text of more lines than there are numbers of 32 bits is more than memory has.
fn refusal_of(error: CertifyError) -> WriteError
    ensures { (p : GhostProgram) (d : GhostDerivation) (c : GhostConfig) (interfaces : List ℕ) → IsUnshown p d c interfaces error
        → IsRefusal p d c interfaces result }
{
    match error {
        CertifyError::Unshown(line) => {
            if line > u32::MAX as usize {
                return WriteError::NoMemory;
            }
            WriteError::Unshown(line as u32)
        }
        CertifyError::NoMemory => WriteError::NoMemory,
    }
}
