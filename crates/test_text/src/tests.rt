// All in one test: each costs the gate a third of a minute.
use crate::{front, lexer, parser, ports};
use std::test::Fail;

#[test]
fn ports_and_texts(rt: HostRuntime) -> Result<(), Fail> {
    let alloc = rt.alloc();
    ports::calls::given_and_taken(&rt, alloc)?;
    lexer::tests::cuts_change_nothing_and_the_unfinished_piece_is_held(&rt, alloc)?;
    parser::tests::texts_and_refusals(&rt, alloc)?;
    front::tests::canonical_texts(&rt, alloc)
}
