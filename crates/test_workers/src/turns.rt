// A turn between two threads.
ghost use Rattle.std.specs.Prelude.{◌≡◌, [], ◌∷◌, ◌++◌, false, OnOk, OnErr};

use crate::checking::check;
use pat_logged_value::Kept;
use pat_turn::{Pass, Turn};
use std::alloc::{AllocError, Global};
use std::process::Abort;
use std::sync::Wait;
use std::test::Fail;
use std::thread::{Threads, join};

const ROUNDS: u32 = 500;

/// A line, and the number of the pass that wrote it.
#[derive(Clone, Copy)]
pub struct Line {
    pub number: u32,
    pub round: u32,
}

/// What the passes write to.
#[derive(Drop)]
pub struct Sheet {
    pub title: u32,
    pub lines: Vec<Line>,
}

impl Kept for Sheet {
    type Name = u32;

    type Entry = Line;

    ghost name = { λ s. s.title };

    ghost log = { λ s. s.lines.items };

    ghost by = { λ e. e.number };
}

impl Sheet {
    fn add(&mut self, line: Line) -> Result<(), AllocError>
        ensures title { self.new.title ≡ self.old.title }
        ensures ok { OnOk result (self.new.lines.items ≡ self.old.lines.items ++ line ∷ []) }
        ensures err { OnErr result (self.new.lines.items ≡ self.old.lines.items) }
    {
        self.lines.push(line)?;
        Ok(())
    }
}

// Writes a line in one hold, if there is memory.
fn write<R: Wait>(rt: &R, turn: &Turn<Sheet>, pass: &mut Pass<Sheet>, round: u32)
    requires turn { pass.old.turn ≡ turn.now.id }
    requires free { pass.old.holds ≡ false }
    ensures { pass.new ≡ record pass.old { seen = pass.new.seen } }
{
    let number = pass.number();
    let mut sheet = turn.hold(rt, pass);
    let added = sheet.add(Line { number, round });
    turn.put(pass, sheet);
    drop(added);
}

// Writes as many lines as there are rounds.
fn write_all<R: Wait>(rt: &R, turn: &Turn<Sheet>, mut pass: Pass<Sheet>) -> Pass<Sheet>
    requires turn { pass.turn ≡ turn.now.id }
    requires free { pass.holds ≡ false }
    ensures { result ≡ record pass { seen = result.seen } }
{
    for round in 0..ROUNDS {
        write(rt, turn, &mut pass, round);
    }
    pass
}

// Rests until the other has put the sheet back, and then writes as many.
fn rest_and_write_all<R: Wait>(rt: &R, turn: &Turn<Sheet>, mut pass: Pass<Sheet>) -> Pass<Sheet>
    requires turn { pass.turn ≡ turn.now.id }
    requires free { pass.holds ≡ false }
    ensures { result ≡ record pass { seen = result.seen } }
{
    turn.rest(rt, &mut pass);
    write_all(rt, turn, pass)
}

// Both at once.
fn write_beside<R: Threads + Wait + Sync>(
    rt: &R,
    turn: &Turn<Sheet>,
    first: Pass<Sheet>,
    second: Pass<Sheet>,
) -> (Pass<Sheet>, Pass<Sheet>)
    requires first { (first.turn ≡ turn.now.id) × (first.holds ≡ false) }
    requires second { (second.turn ≡ turn.now.id) × (second.holds ≡ false) }
    ensures first { result.0 ≡ record first { seen = result.0.seen } }
    ensures second { result.1 ≡ record second { seen = result.1.seen } }
{
    join(
        rt,
        || rest_and_write_all(rt, turn, first),
        || write_all(rt, turn, second),
    )
}

// Each pass has its lines in order, whoever began, and the sheet is the one that was put in. A rest may end at any time, so
// nothing is asked of where its pass begins.
pub fn two_threads_take_turns<R: Abort + Threads + Wait + Sync>(
    rt: &R,
    alloc: Global,
) -> Result<(), Fail> {
    let sheet = Sheet {
        title: 7,
        lines: Vec::new(alloc),
    };
    let (turn, mut passes) = Turn::new(alloc, sheet, 2)?;
    let second = passes.remove(1);
    let first = passes.remove(0);
    let (first, second) = write_beside(rt, &turn, first, second);
    passes.push(first)?;
    passes.push(second)?;
    let sheet = turn.close(passes);
    check(rt, sheet.title == 7);
    check(rt, sheet.lines.len() == 1000);
    are_in_order(rt, sheet.lines.as_slice());
    Ok(())
}

// Whether the lines of each of two numbers are those of its rounds.
fn are_in_order(rt: &impl Abort, lines: &[Line]) {
    let mut rounds = [0u32; 2];
    for line in lines {
        check(rt, line.number < 2);
        let number = line.number as usize;
        check(rt, line.round == rounds[number]);
        rounds[number] = line.round.wrapping_add(1);
    }
    check(rt, rounds == [ROUNDS, ROUNDS]);
}
