//! Laws of checkpoints: what is checked is typed and safe, what a resumed run keeps, and texts that are read again. No code of the product.
#![tactic(auto)]

ghost use Rattle.pat_checkpoint_laws.specs.Laws.{NumbersRead, CheckedIsTyped, CheckedIsAligned, CheckedIsSafe, TypedStands, NoneIsBroken, ShownIsChecked, WalkGathers, LetsAreFound, SidesFormed, TypesFormed, LinesShow, ShowableHasCerts, LinesFormed, ProductLevels};

mod resuming;
mod text;

use pat_derivation_laws::validity_laws;
use pat_safety_laws::safety_laws;
pub use resuming::{made_laws, resumed_laws, turn_laws};
pub use text::{lines_law, read_is_text_law, reading_is_one_law, strings_law, text_is_read_law};

/// A checked checkpoint is a typed configuration, from which no steps reach a fault; and a typed configuration whose inclusions are shown is
/// checked.
pub fn checked_laws()
    ensures typed { CheckedIsTyped }
    ensures aligned { CheckedIsAligned }
    ensures safe { CheckedIsSafe }
    ensures stands { TypedStands }
    ensures broken { NoneIsBroken }
    ensures shown { ShownIsChecked }
{
    validity_laws();
    safety_laws();
}

/// What the tests of rules say, without tests.
pub fn check_reading_laws()
    ensures numbers { NumbersRead }
{}

/// Other ways to the same answers: one walk for the holdings of all mailboxes, a table of lets, and that sides are patterns of their interface.
pub fn examining_laws()
    ensures gathers { WalkGathers }
    ensures lets { LetsAreFound }
    ensures sides { SidesFormed }
    ensures types { TypesFormed }
    ensures lines { LinesShow }
    ensures levels { ProductLevels }
{}

/// What the lines of a checkpoint need, and that there are certificates where it can be shown.
pub fn writing_laws()
    ensures certs { ShowableHasCerts }
    ensures formed { LinesFormed }
{}
