// A history that goes on from the checkpoint before it.
ghost use Rattle.std.specs.Prelude.{◌≡◌, ◌<◌, ◌≤◌, ◌+◌, ℕ, List, IfOk, IfErr, IfSome, IfNone, IsTrue, length, map, take, drop};
ghost use Rattle.pat_semantics_spec.specs.WellFormed.{WellFormed};
ghost use Rattle.pat_semantics_spec.specs.Orders.{AscendsFrom};
ghost use Rattle.pat_derivation_spec.specs.Derivations.{Derivation as AnyDerivation};
ghost use Rattle.pat_core.specs.Views.{program_view};
ghost use Rattle.pat_derivations.specs.Views.{derivation_view};
ghost use Rattle.pat_checkpoint_spec.specs.Checkpoints.{interface_at};
ghost use Rattle.pat_checkpoint_spec.specs.Checked.{IsChecked};
ghost use Rattle.pat_checkpoint_spec.specs.Resumed.{interface_made};
ghost use Rattle.pat_checkpoint_data.specs.Views.{checkpoint_view};
ghost use Rattle.pat_history_spec.specs.HistoryText.{marker};
ghost use Rattle.pat_front.specs.declared.front.FrontError.TheVariants.{NoMemory};
ghost use Rattle.pat_input.specs.Inputs.{whole_limit};
ghost use Rattle.pat_input_split.specs.Marked.{IsMarked};
ghost use Rattle.pat_checkpoint_input.specs.CheckedTexts.{has_room};
ghost use Rattle.pat_checkpoint_input.specs.Pieces.{IsPiece, IsNoPiece};
ghost use Rattle.pat_checkpoint_input.specs.Gives.{PieceGives, ProgramGives, LedGives};
ghost use Rattle.pat_limits.specs.Limits.{most_number};

use crate::inputs::{CheckedInput, checked_bytes, has_marks};
use pat_checkpoint_data::Checkpoint;
use pat_checkpoint_laws::{checked_laws, made_laws};
use pat_checkpoint_run::FirstMailboxes;
use pat_derivations::Derivation;
use pat_front::FrontError;
use pat_input::WHOLE_LIMIT;
use pat_input_split::{place_of_mark, split_law};
use pat_reduce_values::Executable;
use pat_replay_input::{Replayed, replay_behind};
use pat_sequences::Sequence;
use std::alloc::Global;

/// A history that goes on from a checkpoint: the derivation that the checkpoint is checked by, the history with the program and with the
/// configuration that it leads to, and the interface of each mailbox that is live there.
#[derive(Drop)]
pub struct Piece {
    pub derivation: Derivation,
    pub replayed: Replayed,
    pub interfaces: Sequence<u32>,
}

/// Where a history leads, and the interface of each mailbox that is live there.
#[derive(Drop)]
pub struct Led {
    pub replayed: Replayed,
    pub interfaces: Sequence<u32>,
}

/// Where the history begins of an input that has a checkpoint before it, as far as marks say.
pub fn place_of_piece(bytes: &[u8]) -> Option<usize>
    ensures within { IfSome result (λ at. at ≤ length bytes.now) }
    ensures piece { IfSome result (λ at. IsPiece bytes.now (take at bytes.now) (drop at bytes.now)) }
    ensures none { IfNone result (IsNoPiece bytes.now) }
{
    split_law();
    if bytes.len() > WHOLE_LIMIT {
        return None;
    }
    match place_of_mark(bytes, b"%%history") {
        Some(at) => piece_at(bytes, at),
        None => None,
    }
}

// So where the history begins at this offset.
fn piece_at(bytes: &[u8], at: usize) -> Option<usize>
    requires small { length bytes.now ≤ whole_limit }
    requires within { at ≤ length bytes.now }
    requires marked { IsMarked marker bytes.now (take at bytes.now) (drop at bytes.now) }
    ensures within { IfSome result (λ at. at ≤ length bytes.now) }
    ensures piece { IfSome result (λ at. IsPiece bytes.now (take at bytes.now) (drop at bytes.now)) }
    ensures none { IfNone result (IsNoPiece bytes.now) }
{
    split_law();
    if !has_marks(&bytes[..at]) {
        return None;
    }
    Some(at)
}

/// The history from this offset on, which goes on from the checkpoint before it.
pub fn replay_piece(alloc: Global, bytes: &[u8], at: usize) -> Result<Piece, FrontError>
    requires within { at ≤ length bytes.now }
    requires piece { IsPiece bytes.now (take at bytes.now) (drop at bytes.now) }
    ensures gives { PieceGives bytes.now result }
    ensures few { IfOk result (λ r. length r.replayed.entries.items < most_number) }
{
    checked_laws();
    match checked_bytes(alloc, &bytes[..at]) {
        Ok(checked) => replay_checked(alloc, checked, &bytes[at..], at as u32),
        Err(error) => Err(error),
    }
}

// The history of a text, whose first byte has this offset, from a checked checkpoint on.
fn replay_checked(
    alloc: Global,
    checked: CheckedInput,
    text: &[u8],
    from: u32,
) -> Result<Piece, FrontError>
    requires well_formed { WellFormed (program_view checked.program) }
    requires checked { IsChecked (program_view checked.program) (derivation_view checked.derivation) (checkpoint_view checked.checkpoint) }
    requires room { IsTrue (has_room (checkpoint_view checked.checkpoint).config) }
    requires within { from + length text.now ≤ whole_limit }
    ensures gives { ProgramGives (program_view checked.program) (derivation_view checked.derivation) (checkpoint_view checked.checkpoint)
        from text.now result }
    ensures few { IfOk result (λ r. length r.replayed.entries.items < most_number) }
{
    let CheckedInput {
        program,
        derivation,
        checkpoint,
    } = checked;
    match Executable::new(alloc, program) {
        Ok(code) => match replay_on(alloc, code, checkpoint, text, from) {
            Ok(led) => Ok(Piece {
                derivation,
                replayed: led.replayed,
                interfaces: led.interfaces,
            }),
            Err(error) => Err(error),
        },
        Err(_) => Err(FrontError::NoMemory),
    }
}

// So of a program that is ready to run.
fn replay_on(
    alloc: Global,
    code: Executable,
    checkpoint: Checkpoint,
    text: &[u8],
    from: u32,
) -> Result<Led, FrontError>
    requires well_formed { WellFormed (program_view code.program) }
    requires checked { (d : AnyDerivation) × IsChecked (program_view code.program) d (checkpoint_view checkpoint) }
    requires room { IsTrue (has_room (checkpoint_view checkpoint).config) }
    requires within { from + length text.now ≤ whole_limit }
    ensures gives { LedGives (program_view code.program) (checkpoint_view checkpoint) from text.now result }
    ensures few { IfOk result (λ r. length r.replayed.entries.items < most_number) }
{
    checked_laws();
    made_laws();
    let (config, interfaces, _, _) = checkpoint.into_parts();
    let first = match FirstMailboxes::of(alloc, &config, interfaces) {
        Ok(first) => first,
        Err(_) => return Err(FrontError::NoMemory),
    };
    match replay_behind(alloc, code, config, text, from) {
        Ok(replayed) => with_interfaces(alloc, &first, replayed),
        Err(error) => Err(error),
    }
}

// With the interfaces of the mailboxes that are live there, where a checkpoint had these at first.
fn with_interfaces(
    alloc: Global,
    first: &FirstMailboxes,
    replayed: Replayed,
) -> Result<Led, FrontError>
    requires { AscendsFrom 0 first.now.live }
    ensures replayed { IfOk result (λ r. r.replayed ≡ replayed) }
    ensures interfaces { IfOk result (λ r. r.interfaces ≡ map (interface_made
        (interface_at first.now.live first.now.interfaces) first.now.next replayed.made) replayed.config.live) }
    ensures refused { IfErr result (λ e. e ≡ NoMemory) }
{
    let live = replayed.config.live.as_slice();
    match first.interfaces_of(alloc, replayed.made.as_slice(), live) {
        Ok(interfaces) => Ok(Led {
            replayed,
            interfaces,
        }),
        Err(_) => Err(FrontError::NoMemory),
    }
}
