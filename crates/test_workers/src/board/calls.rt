// Boards that are advanced call by call, by one seat after another.
ghost use Rattle.std.specs.Prelude.{◌≡◌, ◌<◌, length};
ghost use Rattle.pat_board.specs.Seats.{AreSeatsOf};

use crate::board::again::{advance, open, read};
use crate::board::cases::{CASES, Call, Case, Gives};
use crate::board::checks::{check, check_at};
use pat_board::{Advance, AdvanceRefused, Board, Seat};
use pat_machine::{Machine, Outcome, Receipt};
use pat_reduce::{Config, Entry};
use pat_sequences::Text;
use std::alloc::Global;
use std::process::Abort;
use std::sync::Wait;

/// Each case, to its last call.
pub fn calls_go_as_by_hand<R: Abort + Wait>(rt: &R, alloc: Global) {
    for case in CASES {
        goes_so(rt, alloc, case);
    }
}

fn goes_so<R: Abort + Wait>(rt: &R, alloc: Global, case: &Case) {
    check(rt, case.steps <= 1_000_000, case.name);
    check(
        rt,
        case.messages > 0 && case.messages <= 1_000_000,
        case.name,
    );
    check(rt, case.seats > 0 && case.seats <= 64, case.name);
    let (board, mut seats) = open(
        rt,
        alloc,
        case.program,
        case.steps,
        case.messages,
        case.seats,
    );
    let mut place = 0u64;
    for at in 0..case.calls.len() {
        let call = &case.calls[at];
        check_at(
            rt,
            is_made_so(rt, &board, &mut seats, call, place),
            case.name,
            at,
        );
        if added(call).is_ok() {
            place = place.wrapping_add(1);
        }
    }
    let machine = board.close(seats);
    check(rt, is_closed_so(&machine, case), case.name);
}

// Whether the call gives what it has to, with an entry at this place, and the next seat reads what it has to.
fn is_made_so<R: Abort + Wait>(
    rt: &R,
    board: &Board,
    seats: &mut Vec<Seat>,
    call: &Call,
    place: u64,
) -> bool
    requires { AreSeatsOf board.now seats.old.items }
    ensures { AreSeatsOf board.now seats.new.items }
{
    let (seat, thread, _, shows) = *call;
    let at = seat as usize;
    let many = seats.len();
    if at >= many {
        return false;
    }
    let given = advance_at(rt, board, seats, at, thread);
    let config = read_at(rt, board, seats, (at + 1) % many);
    given == expected(call, place) && shown(&config) == shows
}

// Advances by the seat at this place.
fn advance_at<R: Wait>(
    rt: &R,
    board: &Board,
    seats: &mut Vec<Seat>,
    at: usize,
    thread: Option<u32>,
) -> Result<Advance, AdvanceRefused>
    requires at { at < length seats.old.items }
    requires seats { AreSeatsOf board.now seats.old.items }
    ensures seats { AreSeatsOf board.now seats.new.items }
    ensures len { length seats.new.items ≡ length seats.old.items }
{
    advance(rt, board, &mut seats[at], thread)
}

// Reads by the seat at this place.
fn read_at<R: Abort + Wait>(rt: &R, board: &Board, seats: &mut Vec<Seat>, at: usize) -> Config
    requires at { at < length seats.old.items }
    requires seats { AreSeatsOf board.now seats.old.items }
    ensures { AreSeatsOf board.now seats.new.items }
{
    read(rt, board, &mut seats[at])
}

fn expected(call: &Call, place: u64) -> Result<Advance, AdvanceRefused> {
    let (entry, outcome) = added(call)?;
    let index = Some(place);
    Ok(Advance {
        receipt: Receipt { index, entry },
        outcome,
    })
}

// The entry that the call adds, and the outcome, if the run ends then.
fn added(call: &Call) -> Result<(Entry, Option<Outcome>), AdvanceRefused> {
    let (seat, _, gives, _) = *call;
    let (thread, local, shared, outcome) = match gives {
        Gives::Adds(thread, local, shared) => (thread, local, shared, None),
        Gives::Ends(thread, local, shared, outcome) => (thread, local, shared, Some(outcome)),
        Gives::Refuses(refusal) => return Err(refusal),
    };
    let entry = Entry {
        worker: seat,
        thread,
        local,
        shared,
    };
    Ok((entry, outcome))
}

fn shown(config: &Config) -> (usize, usize, usize) {
    (
        config.threads.len(),
        config.messages.len(),
        config.printed.len(),
    )
}

fn is_closed_so(machine: &Machine, case: &Case) -> bool {
    machine.outcome() == case.outcome
        && are_these(machine.printed(), case.printed)
        && is_history_of(machine.history(), case.calls)
}

/// Whether these are the lines.
pub fn are_these(lines: &[Text], texts: &[&[u8]]) -> bool {
    if lines.len() != texts.len() {
        return false;
    }
    for i in 0..lines.len() {
        if lines[i].as_bytes() != texts[i] {
            return false;
        }
    }
    true
}

// Whether the history has the entries that the calls add, and no others.
fn is_history_of(history: &[Entry], calls: &[Call]) -> bool {
    let mut place = 0usize;
    for call in calls {
        if let Ok((entry, _)) = added(call) {
            if history.get(place) != Some(&entry) {
                return false;
            }
            place = place.wrapping_add(1);
        }
    }
    place == history.len()
}
