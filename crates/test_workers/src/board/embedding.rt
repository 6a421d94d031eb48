// A caller's own loop: one thread of the program after another takes a step, and in between the caller looks at what was printed.
ghost use Rattle.std.specs.Prelude.{◌≡◌};
ghost use Rattle.pat_board.specs.Seats.{IsSeatOf};

use pat_board::{AdvanceRefused, Board, Seat};
use pat_machine::Machine;
use pat_typed_program::Accepted;
use std::alloc::{AllocError, Global};
use std::sync::Wait;

const STEPS: u64 = 1_000;

const MESSAGES: u32 = 10;

/// Runs the program until it has printed so many lines, or nothing goes on.
pub fn run_to_line<R: Wait>(
    rt: &R,
    alloc: Global,
    program: Accepted,
    lines: usize,
) -> Result<Machine, AllocError> {
    let (board, mut seats) = Board::open(alloc, program, STEPS, MESSAGES, 1)?;
    take_rounds(rt, &board, &mut seats[0], lines);
    Ok(board.close(seats))
}

fn take_rounds<R: Wait>(rt: &R, board: &Board, seat: &mut Seat, lines: usize)
    requires { IsSeatOf board.now seat.old }
    ensures { seat.new ≡ record seat.old { seen = seat.new.seen } }
{
    for _ in 0..STEPS {
        if !take_round(rt, board, seat, lines) {
            return;
        }
    }
}

// Advances each thread once. Whether another round is wanted.
fn take_round<R: Wait>(rt: &R, board: &Board, seat: &mut Seat, lines: usize) -> bool
    requires { IsSeatOf board.now seat.old }
    ensures { seat.new ≡ record seat.old { seen = seat.new.seen } }
{
    let Ok(config) = board.read(rt, seat) else {
        return false;
    };
    for thread in 0..config.next_thread {
        match board.advance(rt, seat, Some(thread)) {
            Ok(advance) if advance.outcome.is_some() => return false,
            // Not ready: it has ended, or waits for a message or for room to send one.
            Ok(_) | Err(AdvanceRefused::NotReady) => {}
            Err(AdvanceRefused::Spent | AdvanceRefused::NoMemory) => return false,
        }
        match board.read(rt, seat) {
            Ok(config) if config.printed.len() < lines => {}
            _ => return false,
        }
    }
    true
}
