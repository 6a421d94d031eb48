// What holds of all bytes.
ghost use Rattle.std.specs.Prelude.{ℕ, List};
ghost use Rattle.pat_input_split.specs.program_with_text.OneProgram.{OneProgram};

use crate::split_law;
use pat_front::verdict_law;

/// Bytes are those of one program at most, or are refused in one way.
pub fn program_law()
    ensures { (mark bytes : List ℕ) → OneProgram mark bytes }
{
    split_law();
    verdict_law();
}
