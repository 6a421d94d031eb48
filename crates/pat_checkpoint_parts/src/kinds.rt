// The second rule: each part has values of the right kinds, and what it gives fits what the next frame wants.
ghost use Rattle.std.specs.Prelude.{◌≡◌, IsTrue, IfOk};
ghost use Rattle.pat_semantics_spec.specs.WellFormed.{WellFormed};
ghost use Rattle.pat_derivation_spec.specs.Validity.{IsValid};
ghost use Rattle.pat_patterns.specs.Views.{patterns_view};
ghost use Rattle.pat_core.specs.Views.{program_view};
ghost use Rattle.pat_derivations.specs.Views.{derivation_view};
ghost use Rattle.pat_certificate_checks.specs.Plain.{all_plain};
ghost use Rattle.pat_checkpoint_spec.specs.Numbers.{numbers_hold};
ghost use Rattle.pat_checkpoint_spec.specs.Kinds.{kinds_hold as kinds_hold_by};
ghost use Rattle.pat_checkpoint_data.specs.Views.{checkpoint_view};

use crate::parts::Parts;
use crate::showing::threads_shown;
use pat_checkpoint_data::Checkpoint;
use pat_core::Program;
use pat_derivations::Derivation;
use pat_patterns::Pattern;
use std::alloc::{AllocError, Global};

/// Whether each part has values of the right kinds for just the free variables of its node, each frame is that of a `let`, and what a
/// part gives is shown to fit what the next frame wants. Numbers hold; the plain values are the derivation's.
pub fn kinds_hold(
    alloc: Global,
    program: &Program,
    derivation: &Derivation,
    plain: &[Pattern],
    checkpoint: &Checkpoint,
) -> Result<bool, AllocError>
    requires well { WellFormed (program_view program.now) }
    requires valid { IsValid (program_view program.now) (derivation_view derivation.now) }
    requires plain { patterns_view plain.now ≡ all_plain (derivation_view derivation.now).vars }
    requires numbers { IsTrue (numbers_hold (checkpoint_view checkpoint.now).config) }
    ensures { IfOk result (λ yes. yes ≡ kinds_hold_by (program_view program.now) (derivation_view derivation.now)
        (checkpoint_view checkpoint.now)) }
{
    let config = &checkpoint.config;
    let live = config.live.as_slice();
    let interfaces = checkpoint.interfaces.as_slice();
    let threads = config.threads.as_slice();
    let parts = Parts::new(alloc, program, derivation, live, interfaces)?;
    if !parts.threads_fit(threads) {
        return Ok(false);
    }
    let certs = checkpoint.part_certs.as_slice();
    threads_shown(alloc, &parts.typing, plain, threads, certs)
}
