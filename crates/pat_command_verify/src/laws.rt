// What holds of all bytes.
ghost use Rattle.std.specs.Prelude.{ℕ, List};
ghost use Rattle.pat_command_verify.specs.Answers.{OneAnswer};

use pat_derivation_laws::first_bad_laws;
use pat_derivation_text_laws::reading_is_one_law;
use pat_input_split::program_law;

/// Bytes are accepted or refused, not both, and refused in one way: so each answer comes exactly where it is said to come.
pub fn verify_law()
    ensures { (bytes : List ℕ) → OneAnswer bytes }
{
    first_bad_laws();
    reading_is_one_law();
    program_law();
}
