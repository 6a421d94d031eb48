// All in one test: each costs the gate a third of a minute.
use crate::board::calls::calls_go_as_by_hand;
use crate::board::loops::{a_loop_looks_between_steps, a_seat_is_dropped};
use crate::board::threads::{four_threads_advance, four_threads_take_turns, one_thread_disturbs};
use std::test::Fail;

#[test]
fn the_board(rt: HostRuntime) -> Result<(), Fail> {
    calls_go_as_by_hand(&rt, rt.alloc());
    a_loop_looks_between_steps(&rt, rt.alloc());
    a_seat_is_dropped(&rt, rt.alloc());
    four_threads_advance(&rt, rt.alloc())?;
    four_threads_take_turns(&rt, rt.alloc())?;
    one_thread_disturbs(&rt, rt.alloc())
}
