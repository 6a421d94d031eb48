// All in one test: each costs the gate a third of a minute.
use crate::holding::{two_workers, two_workers_of_a_load};
use crate::{hostile, rows};
use std::test::Fail;

#[test]
fn calls(rt: HostRuntime) -> Result<(), Fail> {
    let alloc = rt.alloc();
    rows::run_rows(&rt, alloc)?;
    rows::print_rows(&rt, alloc)?;
    rows::each_rule_where_it_is_first_broken(&rt, alloc)?;
    rows::words_that_are_no_command(&rt, alloc)?;
    rows::calls_of_several_words(&rt, alloc)?;
    rows::replay_rows(&rt, alloc)?;
    rows::order_rows(&rt, alloc)?;
    rows::an_entry_has_256_steps_at_most(&rt, alloc)?;
    rows::a_program_has_1048576_bytes_at_most(&rt, alloc)?;
    rows::each_read_and_each_write_fails_in_turn(&rt, alloc)?;
    two_workers(&rt, alloc)?;
    two_workers_of_a_load(&rt, alloc)?;
    hostile::a_program_cut_at_each_byte(&rt, alloc)?;
    hostile::programs_that_are_refused(&rt, alloc)?;
    hostile::ports_that_fail_at_each_call(&rt, alloc)?;
    hostile::programs_at_a_limit_and_a_step_beyond(&rt, alloc)?;
    hostile::derivations(&rt, alloc)?;
    hostile::runs(&rt, alloc)
}
