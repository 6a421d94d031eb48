// What holds of all bytes.
ghost use Rattle.std.specs.Prelude.{ℕ, List};
ghost use Rattle.pat_checkpoint_input.specs.OneCheckpoint.{OneCheckpoint, OnePiece};

use pat_checkpoint_laws::reading_is_one_law;
use pat_derivation_laws::first_bad_laws;
use pat_input_split::{program_law, split_law};
use pat_replay_input::text_law;

/// Bytes are those of one checked checkpoint at most, or are refused in one way, and not both.
pub fn checkpoint_input_law()
    ensures { (bytes : List ℕ) → OneCheckpoint bytes }
{
    first_bad_laws();
    reading_is_one_law();
    pat_derivation_text_laws::reading_is_one_law();
    split_law();
    program_law();
}

/// Bytes are those of one history behind a checkpoint at most, or are refused in one way, and not both.
pub fn piece_law()
    ensures { (bytes : List ℕ) → OnePiece bytes }
{
    checkpoint_input_law();
    text_law();
    split_law();
}
