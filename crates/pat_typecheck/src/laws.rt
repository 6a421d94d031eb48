// What holds of all texts.
ghost use Rattle.std.specs.Prelude.{ℕ, List};
ghost use Rattle.pat_typecheck.specs.Laws.{NeverRefused, OneVerdict};

use pat_front::verdict_law;
use pat_resolver_laws::text_laws;
use pat_solve_derivation::one_answer_laws;

/// A text isn't refused whose program can be typed, of which each interface is in bounds and each sending variable of a signature has a
/// derivable word: it is accepted, want of memory aside.
pub fn complete_law()
    ensures { NeverRefused }
{
    verdict_law();
}

/// A text is accepted or refused, not both, and refused for one reason; its line is one too, but for the word that refutes a constraint,
/// of which there may be several. So each answer comes exactly where it is said to come.
pub fn one_verdict_law()
    ensures { (bytes : List ℕ) → OneVerdict bytes }
{
    verdict_law();
    text_laws();
    one_answer_laws();
}
