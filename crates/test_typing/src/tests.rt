// All in one test: each costs the gate a third of a minute.
use crate::checkpoints::checkpoints_are_examined;
use crate::checks::programs_are_checked;
use crate::derivations::derivations_are_judged;
use crate::verify::both_parts_are_verified;
use std::test::Fail;

#[test]
fn what_is_typed(rt: HostRuntime) -> Result<(), Fail> {
    programs_are_checked(&rt, rt.alloc())?;
    derivations_are_judged(&rt, rt.alloc())?;
    both_parts_are_verified(&rt, rt.alloc())?;
    checkpoints_are_examined(&rt, rt.alloc())
}
