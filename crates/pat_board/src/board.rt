// The board and its seats.
ghost use Rattle.std.specs.Prelude.{◌≡◌, ◌<◌, ◌≤◌, IfOk};
ghost use Rattle.pat_reduce.specs.Views.{config_view};
ghost use Rattle.pat_machine_spec.specs.Lendings.{NoneOut};
ghost use Rattle.pat_turn.specs.Shown.{AreNew, IsOfAll};
ghost use Rattle.pat_workers.specs.turns.Holds.{worker_of};
ghost use Rattle.pat_board.specs.Seats.{IsSeatOf, AreSeatsOf, Looked, LeadsTo};
ghost use Rattle.pat_board.specs.Advances.{AdvanceGives};
ghost use Rattle.pat_limits.specs.Limits.{most_messages, most_steps, most_workers};

use crate::advancing::advance;
use crate::answers::{Advance, AdvanceRefused};
use pat_machine::Machine;
use pat_reduce::Config;
use pat_turn::{Notify, Pass, Turn};
use pat_typed_program::Accepted;
use std::alloc::{AllocError, Global};
use std::marker::Model;
use std::sync::Wait;

/// The right to advance a board. Contracts see its board, its number, the program, the limits, and the history that it has seen.
pub type Seat = Pass<Machine>;

/// A machine that is advanced from threads of its callers, by one seat at a time. Contracts see which board it is, the program, the
/// limits, and the number of seats.
#[derive(Drop)]
pub struct Board {
    turn: Turn<Machine>,
}

impl Model for Board {
    ghost use Rattle.std.specs.Coded.{codes};
    ghost use Rattle.pat_patterns.specs.contracts.pattern.Pattern as the_pattern;
    ghost use Rattle.pat_core.specs.contracts.expression.Expr as the_expression;
    ghost use Rattle.pat_machine.specs.declared.job.Named.{Named};
    ghost use Rattle.pat_turn.specs.Shown.{ShownTurn};

    ghost Value = { ShownTurn Named };

    ghost coded = { Prim.hlevel (codes, the_pattern.the_row.coded, the_expression.the_row.coded) };

    ghost view = { λ b. b.turn };
}

impl Board {
    /// A board at the start of a program, with so many steps and at most so many pending messages, and its seats, which have seen
    /// nothing.
    pub fn open(
        alloc: Global,
        accepted: Accepted,
        steps: u64,
        messages: u32,
        seats: u32,
    ) -> Result<(Board, Vec<Seat>), AllocError>
        requires steps { steps ≤ most_steps }
        requires messages { (0 < messages) × (messages ≤ most_messages) }
        requires seats { (0 < seats) × (seats ≤ most_workers) }
        ensures board { IfOk result (λ r. (r.0.name ≡ record { program = accepted; budget = steps; limit = messages })
            × (r.0.passes ≡ seats)) }
        ensures new { IfOk result (λ r. AreNew r.0 r.1.items) }
        ensures seats { IfOk result (λ r. AreSeatsOf r.0 r.1.items) }
    {
        let machine = Machine::new(alloc, accepted, steps, messages)?;
        let (turn, seats) = Turn::new(alloc, machine, seats)?;
        Ok((Board { turn }, seats))
    }

    /// Serves one job of the thread that is named, or of the one whose turn it is, in one hold of the turn. What is refused adds
    /// nothing. It may wait.
    pub fn advance<R: Wait>(
        &self,
        rt: &R,
        seat: &mut Seat,
        thread: Option<u32>,
    ) -> Result<Advance, AdvanceRefused>
        requires { IsSeatOf self.now seat.old }
        ensures seat { seat.new ≡ record seat.old { seen = seat.new.seen } }
        ensures advance { AdvanceGives self.now.name seat.old.number thread seat.old.seen result seat.new.seen }
    {
        let number = seat.number();
        let mut machine = self.turn.hold(rt, seat);
        // What is always true of a machine is said beside its history.
        let _history = machine.history();
        let result = advance(&mut machine, number, thread);
        self.turn.put_back(seat, machine, Notify::Nobody);
        result
    }

    /// A copy of the configuration as it is found. It may wait.
    pub fn read<R: Wait>(&self, rt: &R, seat: &mut Seat) -> Result<Config, AllocError>
        requires { IsSeatOf self.now seat.old }
        ensures seat { seat.new ≡ record seat.old { seen = seat.new.seen } }
        ensures looked { Looked seat.old.number seat.old.seen seat.new.seen }
        ensures config { IfOk result (λ c. LeadsTo self.now.name seat.new.seen (config_view c)) }
    {
        let machine = self.turn.hold(rt, seat);
        let result = machine.config();
        self.turn.put_back(seat, machine, Notify::Nobody);
        result
    }

    /// The machine, against all seats, with no job out. It takes no memory.
    pub fn close(self, seats: Vec<Seat>) -> Machine
        requires { AreSeatsOf self seats.items }
        ensures name { result.named ≡ self.name }
        ensures history { IsOfAll worker_of seats.items result.history }
        ensures back { NoneOut result.out }
    {
        let Board { turn } = self;
        let mut machine = turn.close(seats);
        machine.give_back_all();
        machine
    }
}
