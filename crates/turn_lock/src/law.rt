//! The rule of the lock's table. Word 0 is the turn: 0 where it is free, 1 where it is taken. Word 1 is the number of entries. The
//! slot has the value, or nothing while the turn is taken.
use crate::kept::Kept;
use crate::view::PassView;
use atomic_table::TableRule;
use std::marker::PhantomData;
use std::snapshot::Snapshot;

/// What the table is made with: the first value, and how many passes there may be.
#[derive(Drop)]
pub struct Opening<K> {
    pub value: Snapshot<K>,
    pub passes: u32,
}

/// The rule of the table of a turn lock that protects a `K`.
pub struct Law<K> {
    marker: PhantomData<K>,
}

impl<K: Kept> TableRule<Option<K>, PassView<K::Entry>, Opening<K>> for Law<K> {
    ghost use Rattle.turn_lock.specs.{Rule.Ruled, Views.first_view};

    ghost holds = { λ opening. Ruled K.history K.bearer opening.passes };

    ghost first = { λ opening. first_view opening.passes (K.history opening.value.value) };
}
