// All rows.
use crate::inclusions::covers::all_covers;
use crate::inclusions::forms::all_forms;
use crate::inclusions::random::all_random;
use crate::inclusions::refutations::all_refutations;
use std::test::Fail;

#[test]
fn rows(rt: HostRuntime) -> Result<(), Fail> {
    let alloc = rt.alloc();
    all_forms(&rt, alloc)?;
    all_covers(&rt, alloc)?;
    all_refutations(&rt, alloc)?;
    all_random(&rt, alloc)?;
    Ok(())
}
