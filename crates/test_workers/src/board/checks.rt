// What must hold. Assertions stand here alone, since each costs the proof of the function that it stands in.
ghost use Rattle.std.specs.Prelude.{IsTrue};

use std::process::Abort;

/// Ends the test, and says of what, unless it holds.
pub fn check(rt: &impl Abort, holds: bool, what: &str)
    ensures { IsTrue holds }
{
    assert!(rt; holds, "{what}");
}

/// The same of one of several.
pub fn check_at(rt: &impl Abort, holds: bool, what: &str, number: usize)
    ensures { IsTrue holds }
{
    assert!(rt; holds, "{what}, {number}");
}
