// What each step tells.
ghost use Rattle.pat_turn.specs.Rule.{drew, looked, passed, counted, another, both, spent};

use crate::view::View;
use atomic_table::{Join, Play, Split};
use pat_logged_value::Kept;

pub(crate) struct Draw;

impl<V, N, E> Play<Option<V>, View<N, E>> for Draw {
    ghost then = { λ _. drew };
}

pub(crate) struct Look;

impl<V: Kept> Play<Option<V>, View<V::Name, V::Entry>> for Look {
    ghost then = { λ _. looked V.name V.log V.by };
}

pub(crate) struct PassOn;

impl<V: Kept> Play<Option<V>, View<V::Name, V::Entry>> for PassOn {
    ghost then = { λ _. passed V.log };
}

pub(crate) struct Another;

impl<N, E> Split<View<N, E>> for Another {
    ghost left = { counted };

    ghost right = { another };
}

pub(crate) struct Fold;

impl<N, E> Join<View<N, E>> for Fold {
    ghost both = { both };

    ghost spent = { spent };
}
