// All in one test: each costs the gate a third of a minute.
use crate::commits::one_job_is_committed;
use crate::runs::runs_to_an_outcome;
use crate::turns::two_threads_take_turns;
use std::test::Fail;

#[test]
fn the_workers(rt: HostRuntime) -> Result<(), Fail> {
    one_job_is_committed(&rt, rt.alloc())?;
    two_threads_take_turns(&rt, rt.alloc())?;
    runs_to_an_outcome(&rt, rt.alloc())
}
