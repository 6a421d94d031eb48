// What holds of all bytes.
ghost use Rattle.std.specs.Prelude.{ℕ, List};
ghost use Rattle.pat_command_resume.specs.Answers.{OneAnswer};

use pat_checkpoint_input::checkpoint_input_law;

/// A run goes on from a checkpoint or bytes are refused, not both, and they are refused in one way: so each answer comes exactly where it
/// is said to come.
pub fn resume_law()
    ensures { (bytes : List ℕ) → OneAnswer bytes }
{
    checkpoint_input_law();
}
