// Loops of one caller: one that looks at the configuration between steps, and one that loses a seat.
ghost use Rattle.std.specs.Prelude.{◌≡◌};
ghost use Rattle.pat_board.specs.Seats.{IsSeatOf};

use crate::board::again::{accept, advance, drive, open, read};
use crate::board::calls::are_these;
use crate::board::checks::check;
use crate::board::embedding::run_to_line;
use pat_board::{Board, Seat};
use pat_machine::{Machine, Outcome};
use std::alloc::Global;
use std::process::Abort;
use std::sync::Wait;

// Two threads that print two lines each.
const TWO_PRINT: &[u8] = b"def main(): Unit { spawn { print(1); print(2) }; print(10); print(20) }";

// A thread that prints three lines.
const ONE_PRINTS: &[u8] = b"def main(): Unit { print(1); print(2); print(3) }";

/// Thread 0 spawns in the first round. Then each prints a line a round.
pub fn a_loop_looks_between_steps<R: Abort + Wait>(rt: &R, alloc: Global) {
    let mut machine = three_lines(rt, alloc);
    check(
        rt,
        are_these(machine.printed(), &[b"10", b"1", b"20"]),
        "three lines",
    );
    check(rt, machine.outcome().is_none(), "the run goes on");
    drive(rt, &mut machine);
    check(
        rt,
        are_these(machine.printed(), &[b"10", b"1", b"20", b"2"]),
        "all lines",
    );
    check(
        rt,
        machine.outcome() == Some(Outcome::Done),
        "the run is done",
    );
}

// A run to the third line, once more where memory ran out: then the loop stops before, or has no board.
fn three_lines<R: Abort + Wait>(rt: &R, alloc: Global) -> Machine {
    match run_to_line(rt, alloc, accept(rt, alloc, TWO_PRINT), 3) {
        Ok(machine) if machine.printed().len() == 3 => machine,
        _ => run_to_line(rt, alloc, accept(rt, alloc, TWO_PRINT), 3).expect(rt, "memory"),
    }
}

/// The second of two seats adds an entry and is dropped. The other one goes on to the end, and reads all of it. Only the board can't be
/// closed then, and is dropped too.
pub fn a_seat_is_dropped<R: Abort + Wait>(rt: &R, alloc: Global) {
    let (board, mut seats) = open(rt, alloc, ONE_PRINTS, 100, 1, 2);
    let mut second = seats.remove(1);
    let mut first = seats.remove(0);
    check(
        rt,
        advance(rt, &board, &mut second, None).is_ok(),
        "an entry of the second",
    );
    drop(second);
    check(
        rt,
        last_place(rt, &board, &mut first) == Some(3),
        "entries of the first",
    );
    let config = read(rt, &board, &mut first);
    let printed = config.printed.as_slice();
    check(rt, are_these(printed, &[b"1", b"2", b"3"]), "what was read");
}

// Advances to the end, and gives the place of the last entry, if each stood behind the one before it, the first of them at 1.
fn last_place<R: Wait>(rt: &R, board: &Board, seat: &mut Seat) -> Option<u64>
    requires { IsSeatOf board.now seat.old }
    ensures { seat.new ≡ record seat.old { seen = seat.new.seen } }
{
    for place in 1..100 {
        match advance(rt, board, seat, None) {
            Ok(advance) if advance.receipt.index == Some(place) => {
                if advance.outcome == Some(Outcome::Done) {
                    return Some(place);
                }
            }
            _ => return None,
        }
    }
    None
}
