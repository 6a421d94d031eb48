// The turn and its passes.
ghost use Rattle.std.specs.Prelude.{◌≡◌, ℕ, ◌+◌, ◌%◌, ◌^◌, ◌<◌, ◌≤◌, [], ◌∷◌, ◌++◌, map, length, slice_index, ◌-◌, IfOk, OnOk, None, Some, true, false};
ghost use Rattle.std.specs.List.{All};
ghost use mathlib.Core.List.{IsPrefix};
ghost use Rattle.pat_turn.specs.Rule.{Comes, MayPut, entries_naming, opened};
ghost use Rattle.pat_turn.specs.Shown.{AreNew, AreAll, GoesOn, IsOfAll, newcomers, turn_of, as_part};
ghost use Rattle.pat_turn.specs.declared.view.Stage.TheVariants.{Idle};
ghost use Rattle.pat_turn.specs.Passes.{IsIdle, IsHolding, IsTable, known, with_seen};
ghost use Rattle.pat_limits.specs.Limits.{most_workers};

use crate::law::{Law, Opening};
use crate::parking::Parking;
use crate::plays::{Another, Draw, Fold, Look, PassOn};
use crate::view::View;
use crate::wake_flags::{WakeFlags, is_near};
use atomic_table::{Refused, Seat, Shared, Table};
use pat_logged_value::Kept;
use std::alloc::{AllocError, Global};
use std::hint;
use std::marker::Model;
use std::snapshot::Snapshot;
use std::sync::Wait;
use std::sync::atomic::{AtomicU64, Ordering};

type Place<V> = Seat<Option<V>, View<<V as Kept>::Name, <V as Kept>::Entry>>;

type Top<V> = Shared<Option<V>, View<<V as Kept>::Name, <V as Kept>::Entry>, Opening<V>, Law<V>>;

/// A lock that hands a value from pass to pass. Contracts see which one it is, the value's name, and the number of passes.
#[derive(Drop)]
pub struct Turn<V: Kept> {
    table: Table<Option<V>, View<V::Name, V::Entry>, Opening<V>, Law<V>, Global>,
    flags: WakeFlags,
    /// How often the value was put back with something to do. It is changed while the value is held, and no contract speaks of it.
    generation: AtomicU64,
    /// How many passes rest.
    resting: AtomicU64,
    parking: Parking,
}

/// Which passes are woken when the value is put back.
#[derive(Clone, Copy, Debug, PartialEq, Eq)]
pub enum Notify {
    Nobody,
    /// There may be something to do, and this pass looks for it next. Who is about to rest looks again; who rests isn't woken.
    Soon,
    /// One of those that rest.
    One,
    /// One of those that are parked.
    OneParked,
    All,
}

impl<V: Kept> Model for Turn<V> {
    ghost use Rattle.std.specs.Prelude.{◌<◌};
    ghost use Rattle.pat_turn.specs.Shown.{ShownTurn};
    ghost use Rattle.pat_turn.specs.Shown.{AreNew, AreAll, GoesOn, IsOfAll, newcomers, turn_of, as_part};
    ghost use Rattle.pat_turn.specs.declared.view.Stage.TheVariants.{Idle};
    ghost use Rattle.pat_turn.specs.Passes.{IsTable};

    ghost Value = { ShownTurn V.Name };

    ghost view = { λ t. record { id = t.table.shared.table_id; name = V.name t.table.shared.key.first.value; passes = t.table.shared.key.passes } };

    ghost invariant = { λ t. IsTable t.table.shared.table_id × (0 < t.table.shared.key.passes) };
}

/// The right to draw tickets. Contracts see its turn, its number, the value's name, the log that it has seen, and whether it holds the value.
#[derive(Drop)]
pub struct Pass<V: Kept> {
    seat: Seat<Option<V>, View<V::Name, V::Entry>>,
    number: u32,
    /// The turn's generation when this pass last held the value.
    generation: u64,
    /// The count of wakeups of those that are parked, then.
    wakeups: u64,
}

impl<V: Kept> Model for Pass<V> {
    ghost use Rattle.pat_turn.specs.Shown.{ShownPass, shown, IsSettled};

    ghost Value = { ShownPass V.Name V.Entry };

    ghost view = { λ p. shown p.seat.table_id p.seat.me };

    ghost invariant = { λ p. IsSettled p.number p.seat.me };
}

// Draws a ticket, and waits until it is served.
fn take<V: Kept, R: Wait>(rt: &R, top: &Top<V>, flags: &WakeFlags, seat: &mut Place<V>) -> V
    requires table { IsTable top.now.table_id × (seat.old.table_id ≡ top.now.table_id) }
    requires idle { IsIdle seat.old }
    ensures seat { (seat.new.table_id ≡ seat.old.table_id) × IsHolding seat.new × (known seat.new ≡ with_seen (known seat.old) (V.log result)) }
    ensures value { Comes V.name V.log V.by (known seat.old) result }
{
    let ticket = top.fetch_add::<Draw>(seat, 0, 1);
    for _ in rt.forever() {
        let served = top.load::<Look>(seat, 1);
        if served == ticket {
            return top.exchange(seat, 0, None).unwrap();
        }
        wait(rt, top, flags, ticket, served);
    }
    unreachable!()
}

// How often the word is looked at before the thread parks.
const LOOKS: u32 = 200;

// Waits while so many tickets are served and no more. Whose turn is near looks a few times, since most holds are short, and then parks.
// It may end for no reason.
fn wait<V: Kept, R: Wait>(rt: &R, top: &Top<V>, flags: &WakeFlags, ticket: u64, served: u64)
    requires { IsTable top.now.table_id }
{
    if is_near(ticket, served) && changes(top, served) {
        return;
    }
    flags.set(ticket);
    if top.peek(1) == served {
        flags.park(rt, ticket);
    }
}

// Whether another ticket is served soon.
fn changes<V: Kept>(top: &Top<V>, served: u64) -> bool
    requires { IsTable top.now.table_id }
{
    for _ in 0..LOOKS {
        if top.peek(1) != served {
            return true;
        }
        hint::spin_loop();
    }
    false
}

// Puts the value back, and wakes whose turn it is then, and whose turn is near.
fn give<V: Kept>(top: &Top<V>, flags: &WakeFlags, seat: &mut Place<V>, value: V)
    requires table { IsTable top.now.table_id × (seat.old.table_id ≡ top.now.table_id) }
    requires holds { IsHolding seat.old }
    requires value { MayPut V.name V.log V.by (known seat.old) value }
    ensures { (seat.new.table_id ≡ seat.old.table_id) × IsIdle seat.new × (known seat.new ≡ with_seen (known seat.old) (V.log value)) }
{
    drop(top.exchange(seat, 0, Some(value)));
    let served = top.fetch_add::<PassOn>(seat, 1, 1);
    flags.wake_behind(served);
}

// Adds the passes with the numbers from 1 on.
fn add_passes<V: Kept>(
    top: &Top<V>,
    first: &mut Place<V>,
    others: &mut Vec<Pass<V>>,
    passes: u32,
) -> Result<(), AllocError>
    requires table { IsTable top.now.table_id × (first.old.table_id ≡ top.now.table_id) × (passes ≡ top.now.key.passes) }
    requires first { (first.old.me ≡ (opened (V.name top.now.key.first.value), [])) × (0 < passes) }
    requires none { others.old.items ≡ [] }
    ensures first { OnOk result ((first.new.table_id ≡ first.old.table_id) × (first.new.me ≡ (record (opened (V.name top.now.key.first.value)) { made = passes }, []))) }
    ensures others { OnOk result (others.new.items ≡ newcomers (turn_of top.now.table_id (V.name top.now.key.first.value) passes) 1 (passes - 1)) }
{
    for number in 1..passes {
        let seat = top.split_seat::<Another>(first);
        others.push(Pass {
            seat,
            number,
            generation: 0,
            wakeups: 0,
        })?;
    }
    Ok(())
}

// Joins the other passes to the first.
fn join_all<V: Kept>(top: &Top<V>, first: &mut Place<V>, others: Vec<Pass<V>>)
    requires table { IsTable top.now.table_id × (first.old.table_id ≡ top.now.table_id) }
    requires idle { first.old.me.0.stage ≡ Idle }
    requires others { All (λ p. (p.turn ≡ top.now.table_id) × (p.holds ≡ false)) others.items }
    ensures seat { (first.new.table_id ≡ first.old.table_id) × (first.new.id ≡ first.old.id) }
    ensures joined { first.new.me.0 ≡ record first.old.me.0 { joined = first.old.me.0.joined ++ map as_part others.items } }
{
    for pass in others {
        let Pass {
            seat,
            number: _,
            generation: _,
            wakeups: _,
        } = pass;
        top.join_seat::<Fold>(first, seat);
    }
}

impl<V: Kept> Pass<V> {
    /// The passes of a turn have the numbers from 0 on.
    pub fn number(&self) -> u32
        ensures { result ≡ self.now.number }
    {
        self.number
    }
}

impl<V: Kept> Turn<V> {
    /// Waits until the value may be taken, and takes it. Its log begins with all that the pass has seen, and has no further entry of the pass.
    pub fn hold<R: Wait>(&self, rt: &R, pass: &mut Pass<V>) -> V
        requires turn { pass.old.turn ≡ self.now.id }
        requires free { pass.old.holds ≡ false }
        ensures pass { pass.new ≡ record pass.old { seen = V.log result; holds = true } }
        ensures name { pass.old.name ≡ Some (V.name result) }
        ensures seen { IsPrefix pass.old.seen (V.log result) }
        ensures own { entries_naming V.by pass.old.number (V.log result) ≡ entries_naming V.by pass.old.number pass.old.seen }
    {
        let value = take(rt, &self.table.shared, &self.flags, &mut pass.seat);
        pass.generation = self.generation.load(Ordering::SeqCst);
        pass.wakeups = self.parking.lead(pass.number);
        value
    }

    /// Puts the value back, with entries of the pass alone behind those that it has seen, and wakes those that rest.
    pub fn put(&self, pass: &mut Pass<V>, value: V)
        requires turn { pass.old.turn ≡ self.now.id }
        requires holds { pass.old.holds ≡ true }
        requires name { pass.old.name ≡ Some (V.name value) }
        requires log { GoesOn V.by pass.old.number pass.old.seen (V.log value) }
        ensures { pass.new ≡ record pass.old { seen = V.log value; holds = false } }
    {
        self.put_back(pass, value, Notify::All);
    }

    /// As `put`, but wakes only whom it is told to. Where all were woken, and found nothing to do, they would keep one another awake.
    pub fn put_back(&self, pass: &mut Pass<V>, value: V, notify: Notify)
        requires turn { pass.old.turn ≡ self.now.id }
        requires holds { pass.old.holds ≡ true }
        requires name { pass.old.name ≡ Some (V.name value) }
        requires log { GoesOn V.by pass.old.number pass.old.seen (V.log value) }
        ensures { pass.new ≡ record pass.old { seen = V.log value; holds = false } }
    {
        // Before the value is back: who holds it later has seen this.
        self.count(notify);
        give(&self.table.shared, &self.flags, &mut pass.seat, value);
        self.wake(notify);
    }

    // Counts while the value is held.
    fn count(&self, notify: Notify) {
        if notify != Notify::Nobody {
            self.generation.fetch_add(1, Ordering::SeqCst);
        }
        match notify {
            Notify::OneParked => self.parking.count_wakeup(),
            // A pass may end behind this, and another one has to lead.
            Notify::All => {
                self.parking.end_lead();
                self.parking.count_wakeup();
            }
            Notify::Nobody | Notify::Soon | Notify::One => {}
        }
    }

    // Who begins to rest or to park later sees the counts.
    fn wake(&self, notify: Notify) {
        match notify {
            Notify::One => self.wake_resting(),
            Notify::OneParked if self.has_parked() => self.parking.wake_one(),
            Notify::All => {
                self.generation.wake_all();
                self.parking.wake_all();
            }
            Notify::Nobody | Notify::Soon | Notify::OneParked => {}
        }
    }

    // Wakes one of those that rest.
    fn wake_resting(&self) {
        if self.has_resting() {
            self.generation.wake_one();
        }
    }

    /// Whether a pass rests just now.
    pub fn has_resting(&self) -> bool {
        self.resting.load(Ordering::SeqCst) > 0
    }

    /// Whether a pass is parked just now.
    pub fn has_parked(&self) -> bool {
        self.parking.has_parked()
    }

    /// May wait until another pass has put the value back with something to do, since this one last held it.
    pub fn rest<R: Wait>(&self, rt: &R, pass: &mut Pass<V>)
        requires turn { pass.old.turn ≡ self.now.id }
        requires free { pass.old.holds ≡ false }
        ensures { pass.new ≡ pass.old }
    {
        self.resting.fetch_add(1, Ordering::SeqCst);
        if self.generation.load(Ordering::SeqCst) == pass.generation {
            self.generation
                .park(rt, (pass.generation % (1 << 32)) as u32);
        }
        self.resting.fetch_sub(1, Ordering::SeqCst);
    }

    /// May wait until another pass has put the value back and wakes one of those that are parked, or all. It waits only where another
    /// pass leads, which is one that held the value, has not ended, and doesn't park. As this pass doesn't look for what there is to do,
    /// one of those that rest is woken to look.
    pub fn park<R: Wait>(&self, rt: &R, pass: &mut Pass<V>)
        requires turn { pass.old.turn ≡ self.now.id }
        requires free { pass.old.holds ≡ false }
        ensures { pass.new ≡ pass.old }
    {
        if self.parking.has_other_leader(pass.number) {
            self.wake_resting();
            self.parking.park(rt, pass.wakeups);
        }
    }
}

impl<V: Kept> Turn<V> {
    /// A turn with this value, and its passes, which have seen nothing.
    pub fn new(alloc: Global, value: V, passes: u32) -> Result<(Turn<V>, Vec<Pass<V>>), AllocError>
        requires passes { (0 < passes) × (passes ≤ most_workers) }
        requires empty { V.log value ≡ [] }
        ensures turn { IfOk result (λ r. (r.0.name ≡ V.name value) × (r.0.passes ≡ passes)) }
        ensures passes { IfOk result (λ r. AreNew r.0 r.1.items) }
    {
        let mut slots = Vec::with_capacity(alloc, 1)?;
        let mut others = Vec::with_capacity(alloc, passes as usize)?;
        let opening = Opening {
            first: Snapshot::of(&value),
            passes,
        };
        slots.push_reserved(Some(value));
        let (table, mut first) = match Table::new(alloc, &[0, 0], slots, &opening) {
            Ok(made) => made,
            Err(Refused { slots: _ }) => return Err(AllocError),
        };
        add_passes(&table.shared, &mut first, &mut others, passes)?;
        others.insert(
            0,
            Pass {
                seat: first,
                number: 0,
                generation: 0,
                wakeups: 0,
            },
        )?;
        let flags = WakeFlags::new(alloc)?;
        Ok((
            Turn {
                table,
                flags,
                generation: AtomicU64::new(0),
                resting: AtomicU64::new(0),
                parking: Parking::new(),
            },
            others,
        ))
    }
}

impl<V: Kept> Turn<V> {
    /// Gives the value back, once no pass holds it.
    pub fn close(self, mut passes: Vec<Pass<V>>) -> V
        requires { AreAll self passes.items }
        ensures name { V.name result ≡ self.name }
        ensures log { IsOfAll V.by passes.items (V.log result) }
    {
        let Turn { table, .. } = self;
        let Pass {
            seat: mut first,
            number: _,
            generation: _,
            wakeups: _,
        } = passes.remove(0);
        join_all(&table.shared, &mut first, passes);
        let mut closed = table.close_with(first);
        let value = closed.take(0);
        closed.free();
        value.unwrap()
    }
}
