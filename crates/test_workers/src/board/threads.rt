// Threads, each with a seat.
ghost use Rattle.std.specs.Prelude.{◌≡◌, ℕ, ◌<◌, length, slice_index_or, IfOk};
ghost use Rattle.std.specs.List.{All};
ghost use Rattle.pat_board.specs.Seats.{IsSeatOf, AreSeatsOf};

use crate::board::again::{advance, open};
use crate::board::calls::are_these;
use crate::board::checks::check;
use pat_board::{Board, Seat};
use pat_load::program_text;
use pat_machine::{Machine, Outcome};
use pat_reduce::Entry;
use std::alloc::{AllocError, Global};
use std::process::Abort;
use std::sync::Wait;
use std::test::Fail;
use std::thread;
use std::thread::Threads;

// As many steps has the program of `load 8`, so nobody advances it more often.
const STEPS: u64 = 151;

// The seat that adds nothing, where there is one of this number.
const DISTURBER: u32 = 4;

// A thread that isn't there.
const NOBODY: u32 = 99;

// Advances so often, if not to the end.
fn advance_often<R: Wait>(rt: &R, board: &Board, mut seat: Seat, most: u64) -> Seat
    requires { IsSeatOf board.now seat }
    ensures { result ≡ record seat { seen = result.seen } }
{
    for _ in 0..most {
        match advance(rt, board, &mut seat, None) {
            Ok(advance) if advance.outcome.is_none() => {}
            _ => break,
        }
    }
    seat
}

// Asks so often for a step of a thread that isn't there, and reads.
fn disturb<R: Wait>(rt: &R, board: &Board, mut seat: Seat, most: u64) -> Seat
    requires { IsSeatOf board.now seat }
    ensures { result ≡ record seat { seen = result.seen } }
{
    for _ in 0..most {
        let refused = board.advance(rt, &mut seat, Some(NOBODY)).is_err();
        let read = board.read(rt, &mut seat).is_ok();
        if !(refused && read) {
            break;
        }
    }
    seat
}

fn take_part<R: Wait>(rt: &R, board: &Board, seat: Seat, most: u64) -> Seat
    requires { IsSeatOf board.now seat }
    ensures { result ≡ record seat { seen = result.seen } }
{
    if seat.number() == DISTURBER {
        disturb(rt, board, seat, most)
    } else {
        advance_often(rt, board, seat, most)
    }
}

// Each seat in a thread of its own; where none can be made, one after another.
fn take_part_beside<R: Threads + Wait + Sync>(
    rt: &R,
    board: &Board,
    seats: Vec<Seat>,
    most: u64,
) -> Result<Vec<Seat>, AllocError>
    requires { All (λ s. IsSeatOf board.now s) seats.items }
    ensures len { IfOk result (λ v. length v.items ≡ length seats.items) }
    ensures each { IfOk result (λ v. (i : ℕ) (s : _) → i < length seats.items → slice_index_or v.items i s ≡ record (slice_index_or seats.items i s) { seen = (slice_index_or v.items i s).seen }) }
{
    thread::map_vec(
        rt,
        seats,
        &|seat: Seat| -> Seat
            requires { IsSeatOf board.now seat }
            ensures { result ≡ record seat { seen = result.seen } }
        { take_part(rt, board, seat, most) },
    )
}

// All seats of the board at once.
fn all_take_part<R: Threads + Wait + Sync>(
    rt: &R,
    board: &Board,
    seats: Vec<Seat>,
    most: u64,
) -> Result<Vec<Seat>, AllocError>
    requires { AreSeatsOf board.now seats.items }
    ensures { IfOk result (λ v. AreSeatsOf board.now v.items) }
{
    take_part_beside(rt, board, seats, most)
}

/// Whoever takes which step, the program has 151 of them and prints one number.
pub fn four_threads_advance<R: Abort + Threads + Wait + Sync>(
    rt: &R,
    alloc: Global,
) -> Result<(), Fail> {
    let text = program_text(alloc, 8)?;
    let (board, seats) = open(rt, alloc, text.as_slice(), 1000, 100, 4);
    let seats = all_take_part(rt, &board, seats, STEPS)?;
    check(rt, is_done(&board.close(seats)), "four threads at once");
    Ok(())
}

/// Each thread advances the board once, and all of them have before the next round. So of each four entries no two are of one seat.
pub fn four_threads_take_turns<R: Abort + Threads + Wait + Sync>(
    rt: &R,
    alloc: Global,
) -> Result<(), Fail> {
    let text = program_text(alloc, 8)?;
    let (board, seats) = open(rt, alloc, text.as_slice(), 1000, 100, 4);
    let seats = take_turns(rt, &board, seats)?;
    let machine = board.close(seats);
    check(rt, is_done(&machine), "four threads in rounds");
    check(rt, are_of_four(machine.history()), "entries of a round");
    Ok(())
}

// Round after round, as many as four seats can need.
fn take_turns<R: Threads + Wait + Sync>(
    rt: &R,
    board: &Board,
    mut seats: Vec<Seat>,
) -> Result<Vec<Seat>, AllocError>
    requires { AreSeatsOf board.now seats.items }
    ensures { IfOk result (λ v. AreSeatsOf board.now v.items) }
{
    for _ in 0..STEPS.div_ceil(4) {
        seats = all_take_part(rt, board, seats, 1)?;
    }
    Ok(seats)
}

/// Four threads advance the board, while a fifth asks for what isn't there, and reads.
pub fn one_thread_disturbs<R: Abort + Threads + Wait + Sync>(
    rt: &R,
    alloc: Global,
) -> Result<(), Fail> {
    let text = program_text(alloc, 8)?;
    let (board, seats) = open(rt, alloc, text.as_slice(), 1000, 100, 5);
    let seats = all_take_part(rt, &board, seats, STEPS)?;
    let machine = board.close(seats);
    check(rt, is_done(&machine), "four threads and one that disturbs");
    for entry in machine.history() {
        check(rt, entry.worker < DISTURBER, "the seat of an entry");
    }
    Ok(())
}

fn is_done(machine: &Machine) -> bool {
    machine.outcome() == Some(Outcome::Done)
        && steps_of(machine.history()) == STEPS
        && are_these(machine.printed(), &[b"116"])
}

fn steps_of(history: &[Entry]) -> u64 {
    let mut steps = 0u64;
    for entry in history {
        steps = steps.wrapping_add(entry.local as u64);
        if entry.shared.is_some() {
            steps = steps.wrapping_add(1);
        }
    }
    steps
}

// Whether of each four entries no two are of one seat, and each is of one of the first four.
fn are_of_four(history: &[Entry]) -> bool {
    let mut came = [false; 4];
    for place in 0..history.len() {
        if place % 4 == 0 {
            came = [false; 4];
        }
        let seat = history[place].worker as usize;
        if seat >= 4 || came[seat] {
            return false;
        }
        came[seat] = true;
    }
    true
}
