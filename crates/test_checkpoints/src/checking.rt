// What must hold: one helper for all tests, since the message of a comparison costs its caller's proof much.
ghost use Rattle.std.specs.Prelude.{IsTrue};

use std::process::Abort;

/// Ends the test unless it holds.
pub fn check<R: Abort>(rt: &R, holds: bool)
    ensures { IsTrue holds }
{
    assert!(rt; holds)
}
