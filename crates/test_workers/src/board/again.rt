// Calls that are made once more where memory ran out. So each allocation below may fail once, and the test has to go as without that: a
// call that was refused for want of memory has added nothing. Only whose turn it is may have changed, so it goes as without that where a
// thread is named, or one alone can step.
ghost use Rattle.std.specs.Prelude.{◌≡◌, ◌<◌, ◌≤◌};
ghost use Rattle.pat_turn.specs.Shown.{AreNew};
ghost use Rattle.pat_board.specs.Seats.{IsSeatOf, AreSeatsOf};

use crate::board::programs::accepted;
use pat_board::{Advance, AdvanceRefused, Board, Seat};
use pat_machine::Machine;
use pat_reduce::Config;
use pat_typed_program::Accepted;
use std::alloc::{AllocError, Global};
use std::process::Abort;
use std::sync::Wait;

/// The program of a text that is accepted.
pub fn accept(rt: &impl Abort, alloc: Global, text: &[u8]) -> Accepted {
    let found = match accepted(alloc, text) {
        Ok(found) => found,
        Err(AllocError) => accepted(alloc, text).expect(rt, "memory"),
    };
    found.expect(rt, "a program that is accepted")
}

/// A board of the text's program, and its seats.
pub fn open(
    rt: &impl Abort,
    alloc: Global,
    text: &[u8],
    steps: u64,
    messages: u32,
    seats: u32,
) -> (Board, Vec<Seat>)
    requires steps { steps ≤ 1000000 }
    requires messages { (0 < messages) × (messages ≤ 1000000) }
    requires seats { (0 < seats) × (seats ≤ 64) }
    ensures passes { result.0.passes ≡ seats }
    ensures new { AreNew result.0 result.1.items }
    ensures seats { AreSeatsOf result.0 result.1.items }
{
    match Board::open(alloc, accept(rt, alloc, text), steps, messages, seats) {
        Ok(opened) => opened,
        Err(AllocError) => {
            let program = accept(rt, alloc, text);
            Board::open(alloc, program, steps, messages, seats).expect(rt, "memory")
        }
    }
}

/// Advances the board.
pub fn advance<R: Wait>(
    rt: &R,
    board: &Board,
    seat: &mut Seat,
    thread: Option<u32>,
) -> Result<Advance, AdvanceRefused>
    requires { IsSeatOf board.now seat.old }
    ensures { seat.new ≡ record seat.old { seen = seat.new.seen } }
{
    match board.advance(rt, seat, thread) {
        Err(AdvanceRefused::NoMemory) => board.advance(rt, seat, thread),
        result => result,
    }
}

/// Reads the board.
pub fn read<R: Abort + Wait>(rt: &R, board: &Board, seat: &mut Seat) -> Config
    requires { IsSeatOf board.now seat.old }
    ensures { seat.new ≡ record seat.old { seen = seat.new.seen } }
{
    match board.read(rt, seat) {
        Ok(config) => config,
        Err(AllocError) => board.read(rt, seat).expect(rt, "memory"),
    }
}

/// Drives a machine to its outcome.
pub fn drive(rt: &impl Abort, machine: &mut Machine) {
    if machine.run(0).is_err() {
        machine.run(0).expect(rt, "memory");
    }
}
