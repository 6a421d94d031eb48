// What holds of all bytes.
ghost use Rattle.std.specs.Prelude.{ℕ, List};
ghost use Rattle.pat_command_replay.specs.Answers.{OneAnswer};

use pat_checkpoint_input::piece_law;
use pat_input_split::split_law;
use pat_replay_input::history_law;

/// Bytes are replayed, with one output, or refused in one way, and not both: so each answer comes exactly where it is said to come.
pub fn replay_law()
    ensures { (bytes : List ℕ) → OneAnswer bytes }
{
    history_law();
    piece_law();
    split_law();
}
