// What holds of every text.
ghost use Rattle.std.specs.Prelude.{ℕ, List};
ghost use Rattle.pat_front.specs.Laws.{OneAnswer};

/// A text is that of one program at most, is refused in one way at most, and not both: so each answer comes exactly where it
/// is said to come.
pub fn verdict_law()
    ensures { (bytes : List ℕ) → OneAnswer bytes }
{}
