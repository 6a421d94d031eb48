// What holds of all bytes.
ghost use Rattle.std.specs.Prelude.{ℕ, List};
ghost use Rattle.pat_command_checkpoint.specs.Answers.{OneAnswer};

use pat_checkpoint_input::piece_law;
use pat_front::verdict_law;
use pat_solve_derivation::refusal_laws;
use pat_typecheck::one_verdict_law;

/// A checkpoint is written or bytes are refused, not both, and they are refused by one verdict: so each answer comes exactly where it is said
/// to come.
pub fn checkpoint_law()
    ensures { (steps : ℕ) (bytes : List ℕ) → OneAnswer steps bytes }
{
    verdict_law();
    one_verdict_law();
    refusal_laws();
    piece_law();
}
