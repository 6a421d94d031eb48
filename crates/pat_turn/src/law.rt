// The rule of the turn's table.
// Word 0 counts the tickets that were drawn, word 1 those that were served before, and the slot has the value or nothing.
use crate::view::View;
use atomic_table::TableRule;
use pat_logged_value::Kept;
use std::marker::PhantomData;
use std::snapshot::Snapshot;

/// What the table is told when it is made.
#[derive(Drop)]
pub struct Opening<V> {
    pub first: Snapshot<V>,
    pub passes: u32,
}

pub struct Law<V> {
    of: PhantomData<V>,
}

impl<V: Kept> TableRule<Option<V>, View<V::Name, V::Entry>, Opening<V>> for Law<V> {
    ghost use Rattle.std.specs.Prelude.{Some};
    ghost use Rattle.pat_turn.specs.Rule.{IsTurn, opened};

    ghost holds = { λ key. IsTurn V.name V.log V.by (V.name key.first.value) key.passes };

    ghost first = { λ key. opened (V.name key.first.value) };
}
