// The history of an input: from a checkpoint on, if the input has one, and else from the start of the program.
ghost use Rattle.std.specs.Prelude.{◌<◌, IfOk, length};
ghost use Rattle.pat_command_replay.specs.Gives.{InputGives};
ghost use Rattle.pat_limits.specs.Limits.{most_number};

use pat_checkpoint_input::{place_of_piece, replay_piece};
use pat_checkpoint_laws::checked_laws;
use pat_front::FrontError;
use pat_replay_input::{Replayed, replay_bytes};
use std::alloc::Global;

/// What the history of an input leads to.
pub fn replay_input(alloc: Global, bytes: &[u8]) -> Result<Replayed, FrontError>
    ensures gives { InputGives bytes.now result }
    ensures few { IfOk result (λ r. length r.entries.items < most_number) }
{
    checked_laws();
    match place_of_piece(bytes) {
        Some(at) => match replay_piece(alloc, bytes, at) {
            Ok(piece) => Ok(piece.replayed),
            Err(error) => Err(error),
        },
        None => replay_bytes(alloc, bytes),
    }
}
