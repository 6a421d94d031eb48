use crate::{checkpoints, pieces};
use std::test::Fail;

#[test]
fn checkpoint_calls(rt: HostRuntime) -> Result<(), Fail> {
    let alloc = rt.alloc();
    checkpoints::where_runs_lead(&rt, alloc)?;
    checkpoints::runs_that_go_on(&rt, alloc)?;
    checkpoints::histories_that_go_on(&rt, alloc)?;
    pieces::pieces_of_a_history(&rt, alloc)?;
    pieces::pieces_that_are_refused(&rt, alloc)?;
    checkpoints::each_rule_of_checkpoints(&rt, alloc)?;
    checkpoints::lines_that_are_not_read(&rt, alloc)?;
    checkpoints::refusals_before_a_checkpoint_is_looked_at(&rt, alloc)
}
