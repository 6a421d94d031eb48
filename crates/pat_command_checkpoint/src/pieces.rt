// The checkpoint that a history behind a checkpoint leads to.
ghost use Rattle.std.specs.Prelude.{◌≤◌, ℕ, List, IfOk, length, take, drop};
ghost use Rattle.pat_checkpoint_input.specs.Gives.{HasLed};
ghost use Rattle.pat_checkpoint_input.specs.Pieces.{IsPiece};
ghost use Rattle.pat_command_checkpoint.specs.Allowed.{AllowedPiece};

use crate::command::written;
use pat_checkpoint::replayed_law;
use pat_checkpoint_input::{Piece, replay_piece};
use pat_checkpoint_laws::{checked_laws, resumed_laws};
use pat_front::{Answer, FrontError, verdict_answer};
use std::alloc::{AllocError, Global};

/// The answer where a history begins at this offset, and a checkpoint stands before it.
pub fn answer_piece(alloc: Global, bytes: &[u8], at: usize) -> Result<Answer, AllocError>
    requires within { at ≤ length bytes.now }
    requires piece { IsPiece bytes.now (take at bytes.now) (drop at bytes.now) }
    ensures { IfOk result (λ a. AllowedPiece bytes.now a.text.items a.status) }
{
    match replay_piece(alloc, bytes, at) {
        Ok(piece) => answer_led(alloc, piece),
        Err(FrontError::Refused(verdict)) => verdict_answer(alloc, verdict),
        Err(FrontError::NoMemory) => Err(AllocError),
    }
}

// The answer where a history led there.
fn answer_led(alloc: Global, piece: Piece) -> Result<Answer, AllocError>
    requires { (bytes : List ℕ) × HasLed bytes piece }
    ensures { (bytes : List ℕ) → HasLed bytes piece → IfOk result (λ a. AllowedPiece bytes a.text.items a.status) }
{
    checked_laws();
    resumed_laws();
    replayed_law();
    let Piece {
        derivation,
        replayed,
        interfaces,
    } = piece;
    let config = replayed.config;
    let program = &replayed.code.program;
    written(alloc, program, &derivation, config, interfaces)
}
