// The rule of the table that carries a turnstile: two words, the turn and the count, and one slot, where the value lies between two turns.
use crate::histories::Growing;
use crate::views::View;
use atomic_table::{Seat, Shared, Table, TableRule};
use std::alloc::Global;
use std::marker::PhantomData;
use std::snapshot::Snapshot;

/// The rule holds between any two steps.
pub struct TurnRule<V> {
    value: PhantomData<V>,
}

impl<V: Growing> TableRule<Option<V>, View<V::Begin, V::Item>, Snapshot<V>> for TurnRule<V> {
    ghost use Rattle.turnstile.specs.Rule.{Turning, first_view};

    ghost holds = { λ key. Turning V.told V.client (V.told key.value) };

    ghost first = { λ key. first_view (V.told key.value) };
}

/// The part of the table that all passes step with.
pub type Shown<V> = Shared<
    Option<V>,
    View<<V as Growing>::Begin, <V as Growing>::Item>,
    Snapshot<V>,
    TurnRule<V>,
>;

/// The table, whose key is the value at the start.
pub type Board<V> = Table<
    Option<V>,
    View<<V as Growing>::Begin, <V as Growing>::Item>,
    Snapshot<V>,
    TurnRule<V>,
    Global,
>;

/// A pass's seat at the table.
pub type Place<V> = Seat<Option<V>, View<<V as Growing>::Begin, <V as Growing>::Item>>;
