// The rules on what is held of each mailbox.
ghost use Rattle.std.specs.Prelude.{◌≡◌, ◌<◌, ◌&&◌, suc, length, IsTrue, IfOk};
ghost use Rattle.pat_semantics_spec.specs.Programs.{Program as Programs};
ghost use Rattle.pat_semantics_spec.specs.WellFormed.{WellFormed};
ghost use Rattle.pat_derivation_spec.specs.Derivations.{Derivation as Derivations};
ghost use Rattle.pat_derivation_spec.specs.Validity.{IsValid};
ghost use Rattle.pat_patterns.specs.Views.{pattern_view, patterns_view};
ghost use Rattle.pat_core.specs.Views.{program_view};
ghost use Rattle.pat_derivations.specs.Views.{derivation_view};
ghost use Rattle.pat_reduce.specs.Views.{config_view};
ghost use Rattle.pat_certificate_checks.specs.Plain.{all_plain};
ghost use Rattle.pat_checkpoint_spec.specs.Checkpoints.{Checkpoint as Checkpoints};
ghost use Rattle.pat_checkpoint_spec.specs.Kinds.{kinds_fit};
ghost use Rattle.pat_checkpoint_spec.specs.Mailboxes.{mailboxes_differ, holders_hold as holders_hold_of, messages_hold};
ghost use Rattle.pat_checkpoint_spec.specs.Numbers.{numbers_hold};
ghost use Rattle.pat_checkpoint_spec.specs.Balances.{first_or_zero, balances_hold as balances_hold_of};
ghost use Rattle.pat_checkpoint_data.specs.Views.{checkpoint_view};
ghost use Rattle.pat_checkpoint_balances.specs.Gathered.{IsGathered, shown_from};

use crate::gathering::Sides;
use crate::products::product_of;
use pat_certificate_checks::included;
use pat_checkpoint_data::Checkpoint;
use pat_checkpoint_laws::examining_laws;
use pat_core::Program;
use pat_derivation_laws::validity_laws;
use pat_derivations::Derivation;
use pat_patterns::Pattern;
use std::alloc::{AllocError, Global};

/// Whether each live mailbox has one receiver.
pub fn holders_hold(sides: &Sides) -> bool
    ensures { (p : Programs) (d : Derivations) (x : Checkpoints) → IsGathered p d x sides.now → result ≡ holders_hold_of p d x }
{
    for receivers in sides.receivers.as_slice() {
        if receivers.len() != 1 {
            return false;
        }
    }
    true
}

/// Whether of each live mailbox what may come is shown to be in what is expected: by the certificate at its place, or without one.
/// The sides are those of the checkpoint, and the plain values are the derivation's.
pub fn balances_hold(
    alloc: Global,
    program: &Program,
    derivation: &Derivation,
    plain: &[Pattern],
    checkpoint: &Checkpoint,
    sides: &Sides,
) -> Result<bool, AllocError>
    requires well { WellFormed (program_view program.now) }
    requires valid { IsValid (program_view program.now) (derivation_view derivation.now) }
    requires plain { patterns_view plain.now ≡ all_plain (derivation_view derivation.now).vars }
    requires numbers { IsTrue (numbers_hold (config_view checkpoint.now.config)) }
    requires kinds { IsTrue (kinds_fit (program_view program.now) (derivation_view derivation.now) (checkpoint_view checkpoint.now)) }
    requires differ { IsTrue (mailboxes_differ (config_view checkpoint.now.config)) }
    requires messages { IsTrue (messages_hold (program_view program.now) (checkpoint_view checkpoint.now)) }
    requires sides { IsGathered (program_view program.now) (derivation_view derivation.now) (checkpoint_view checkpoint.now) sides.now }
    ensures { IfOk result (λ yes. yes ≡ balances_hold_of (program_view program.now) (derivation_view derivation.now)
        (checkpoint_view checkpoint.now)) }
{
    let interfaces = checkpoint.interfaces.as_slice();
    let certs = checkpoint.mailbox_certs.as_slice();
    let coming = sides.coming.as_slice();
    if interfaces.len() != coming.len() {
        return Ok(false);
    }
    if certs.len() != coming.len() {
        return Ok(false);
    }
    for place in 0..coming.len() {
        if !is_balanced(alloc, program, derivation, plain, checkpoint, sides, place)? {
            return Ok(false);
        }
    }
    Ok(true)
}

// The same of the mailbox at a place.
fn is_balanced(
    alloc: Global,
    program: &Program,
    derivation: &Derivation,
    plain: &[Pattern],
    checkpoint: &Checkpoint,
    sides: &Sides,
    place: usize,
) -> Result<bool, AllocError>
    requires well { WellFormed (program_view program.now) }
    requires valid { IsValid (program_view program.now) (derivation_view derivation.now) }
    requires plain { patterns_view plain.now ≡ all_plain (derivation_view derivation.now).vars }
    requires numbers { IsTrue (numbers_hold (config_view checkpoint.now.config)) }
    requires kinds { IsTrue (kinds_fit (program_view program.now) (derivation_view derivation.now) (checkpoint_view checkpoint.now)) }
    requires differ { IsTrue (mailboxes_differ (config_view checkpoint.now.config)) }
    requires messages { IsTrue (messages_hold (program_view program.now) (checkpoint_view checkpoint.now)) }
    requires sides { IsGathered (program_view program.now) (derivation_view derivation.now) (checkpoint_view checkpoint.now) sides.now }
    requires side { place < length sides.now.coming }
    requires interface { place < length checkpoint.now.interfaces }
    requires cert { place < length checkpoint.now.mailbox_certs }
    ensures { IfOk result (λ yes. shown_from (program_view program.now) (derivation_view derivation.now)
        (checkpoint_view checkpoint.now) place ≡ (yes
        && shown_from (program_view program.now) (derivation_view derivation.now) (checkpoint_view checkpoint.now) (suc place))) }
{
    examining_laws();
    validity_laws();
    let coming = sides.coming.as_slice();
    let receivers = sides.receivers.as_slice();
    let interfaces = checkpoint.interfaces.as_slice();
    let certs = checkpoint.mailbox_certs.as_slice();
    let left = product_of(alloc, coming[place].as_slice())?;
    let right = first_of(receivers[place].as_slice())?;
    let cert = certs[place].as_ref();
    included(
        alloc,
        program,
        derivation,
        plain,
        interfaces[place],
        &left,
        &right,
        cert,
    )
}

/// The first of the patterns, and 0 where there is none.
pub fn first_of(patterns: &[Pattern]) -> Result<Pattern, AllocError>
    ensures { IfOk result (λ e. pattern_view e ≡ first_or_zero (patterns_view patterns.now)) }
{
    match patterns.first() {
        None => Ok(Pattern::Zero),
        Some(first) => first.copy(),
    }
}
