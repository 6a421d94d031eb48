// What holds of all bytes.
ghost use Rattle.std.specs.Prelude.{ℕ, List};
ghost use Rattle.pat_input_split.specs.Splits.{OneSplit};

/// Bytes are in two parts in one way at most, and not where no line of them is the mark.
pub fn split_law()
    ensures { (mark bytes : List ℕ) → OneSplit mark bytes }
{}
