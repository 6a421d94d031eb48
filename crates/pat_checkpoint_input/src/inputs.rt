// An input of a program, a derivation and a checkpoint.
ghost use Rattle.std.specs.Prelude.{◌<◌, ◌≤◌, ◌+◌, ℕ, List, IfOk, IsTrue, IsFalse, length, take, drop};
ghost use Rattle.pat_semantics_spec.specs.WellFormed.{WellFormed};
ghost use Rattle.pat_core.specs.Views.{program_view};
ghost use Rattle.pat_derivation_text_spec.specs.DerivationText.{marker};
ghost use Rattle.pat_input.specs.Inputs.{limit, whole_limit};
ghost use Rattle.pat_checkpoint_spec.specs.text.CheckpointText.{marker as checkpoint_marker};
ghost use Rattle.pat_input_split.specs.Marked.{IsMarked, IsUnmarked};
ghost use Rattle.pat_front.specs.declared.verdict.Verdict.TheVariants.{BadText};
ghost use Rattle.pat_checkpoint_input.specs.Parts.{HasCheckpoint, HasMarks, LacksCheckpoint};
ghost use Rattle.pat_checkpoint_input.specs.Gives.{BytesGive, BehindGives, PartsGive};
ghost use Rattle.pat_limits.specs.Limits.{number_count};

use crate::texts::checked_texts;
use pat_checkpoint_data::Checkpoint;
use pat_core::Program;
use pat_derivations::Derivation;
use pat_front::{FrontError, Verdict};
use pat_input::{LIMIT, WHOLE_LIMIT};
use pat_input_split::{place_of_mark, program_before, split_law};
use pat_sequences::let_go;
use std::alloc::Global;

/// A program, a valid derivation of it, and a checkpoint that this checks.
#[derive(Drop)]
pub struct CheckedInput {
    pub program: Program,
    pub derivation: Derivation,
    pub checkpoint: Checkpoint,
}

/// The bytes are the texts of a program, of a valid derivation of it, and of a checkpoint that is checked by it: these three.
pub fn checked_bytes(alloc: Global, bytes: &[u8]) -> Result<CheckedInput, FrontError>
    ensures gives { BytesGive bytes.now result }
    ensures well_formed { IfOk result (λ r. WellFormed (program_view r.program)) }
{
    if lacks_checkpoint(bytes) {
        return Err(FrontError::Refused(Verdict::BadText(bytes.len() as u32)));
    }
    match program_before(alloc, bytes, b"%%derivation") {
        Ok((program, at)) => checked_behind(alloc, program, &bytes[at..], at as u32),
        Err(error) => Err(error),
    }
}

/// Whether a derivation stands behind something, and a checkpoint behind that, as far as their marks say.
pub fn has_marks(bytes: &[u8]) -> bool
    ensures has { IsTrue result → HasMarks bytes.now }
    ensures lacks { IsFalse result → HasMarks bytes.now → ⊥ }
{
    split_law();
    match place_of_mark(bytes, b"%%derivation") {
        Some(at) => has_checkpoint(&bytes[at..]),
        None => false,
    }
}

// Whether there is a derivation behind a program that isn't too long, and no checkpoint behind it. This comes before the program is looked
// at.
fn lacks_checkpoint(bytes: &[u8]) -> bool
    ensures lacks { IsTrue result → LacksCheckpoint bytes.now (BadText (length bytes.now)) }
    ensures has { IsFalse result → length bytes.now ≤ whole_limit → (front text : List ℕ) → IsMarked marker bytes.now front text
        → length front ≤ limit → HasCheckpoint text }
{
    split_law();
    if bytes.len() > WHOLE_LIMIT {
        return false;
    }
    match place_of_mark(bytes, b"%%derivation") {
        Some(at) => lacks_behind(bytes, at),
        None => false,
    }
}

// So where the derivation begins at this offset.
fn lacks_behind(bytes: &[u8], at: usize) -> bool
    requires small { length bytes.now ≤ whole_limit }
    requires within { at ≤ length bytes.now }
    requires marked { IsMarked marker bytes.now (take at bytes.now) (drop at bytes.now) }
    ensures lacks { IsTrue result → LacksCheckpoint bytes.now (BadText (length bytes.now)) }
    ensures has { IsFalse result → (front text : List ℕ) → IsMarked marker bytes.now front text
        → length front ≤ limit → HasCheckpoint text }
{
    split_law();
    if at > LIMIT {
        return false;
    }
    !has_checkpoint(&bytes[at..])
}

// Whether a checkpoint stands behind the derivation.
fn has_checkpoint(text: &[u8]) -> bool
    ensures has { IsTrue result → HasCheckpoint text.now }
    ensures lacks { IsFalse result → IsUnmarked checkpoint_marker text.now }
{
    match place_of_mark(text, b"%%checkpoint") {
        Some(_) => true,
        None => false,
    }
}

// A program, and behind it a derivation, whose first byte has this offset, and a checkpoint.
fn checked_behind(
    alloc: Global,
    program: Program,
    text: &[u8],
    from: u32,
) -> Result<CheckedInput, FrontError>
    requires well_formed { WellFormed (program_view program) }
    requires interfaces { length program.interfaces < number_count }
    requires room { from + length text.now ≤ whole_limit }
    requires marked { HasCheckpoint text.now }
    ensures gives { BehindGives (program_view program) from text.now result }
    ensures well_formed { IfOk result (λ r. WellFormed (program_view r.program)) }
{
    split_law();
    match place_of_mark(text, b"%%checkpoint") {
        Some(at) => checked_parts(alloc, program, &text[..at], &text[at..], from),
        None => unreachable!(),
    }
}

fn checked_parts(
    alloc: Global,
    program: Program,
    derivation: &[u8],
    checkpoint: &[u8],
    from: u32,
) -> Result<CheckedInput, FrontError>
    requires well_formed { WellFormed (program_view program) }
    requires interfaces { length program.interfaces < number_count }
    requires room { from + length derivation.now + length checkpoint.now ≤ whole_limit }
    ensures gives { PartsGive (program_view program) from derivation.now checkpoint.now result }
    ensures well_formed { IfOk result (λ r. WellFormed (program_view r.program)) }
{
    match checked_texts(alloc, &program, derivation, checkpoint, from) {
        Ok((derivation, checkpoint)) => Ok(CheckedInput {
            program,
            derivation,
            checkpoint,
        }),
        Err(error) => {
            let_go(program);
            Err(error)
        }
    }
}
