// What holds of all texts, and of all bytes.
ghost use Rattle.std.specs.Prelude.{ℕ, List};
ghost use Rattle.pat_semantics_spec.specs.Configs.{Config};
ghost use Rattle.pat_semantics_spec.specs.Programs.{Program};
ghost use Rattle.pat_replay_input.specs.OneReplay.{OneReplay, OneText};

use pat_history_laws::reading_is_one_law;
use pat_input_split::{program_law, split_law};
use pat_machine_laws::refusal_laws;

/// From a configuration of a program on, a text is that of one history at most, which leads to one configuration, or is refused in one way.
pub fn text_law()
    ensures { (p : Program) (b : Config) (text : List ℕ) → OneText p b text }
{
    refusal_laws();
    reading_is_one_law();
    split_law();
}

/// Bytes are those of one program and one history at most, which leads to one configuration, or are refused in one way.
pub fn history_law()
    ensures { (bytes : List ℕ) → OneReplay bytes }
{
    text_law();
    program_law();
}
