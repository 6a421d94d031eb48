// What holds of all bytes.
ghost use Rattle.std.specs.Prelude.{ℕ, List};
ghost use Rattle.pat_command_order.specs.Answers.{OneAnswer};

use pat_replay_input::history_law;

/// Bytes have one history that is brought into order, or are refused in one way, and not both: so each answer comes exactly where it is
/// said to come.
pub fn order_law()
    ensures { (bytes : List ℕ) → OneAnswer bytes }
{
    history_law();
}
