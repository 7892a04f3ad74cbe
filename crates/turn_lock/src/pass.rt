//! The lock, its passes and its turns.
ghost use Rattle.std.specs.Prelude.{◌≡◌, [], ◌∷◌, None, true, false};
ghost use Rattle.turn_lock.specs.Entries.{Owns};

use crate::kept::Kept;
use crate::law::{Law, Opening};
use crate::view::PassView;
use atomic_table::{Seat, Table};
use std::alloc::Global;

/// A value that passes use in turns: one turn at a time may change it.
#[derive(Drop)]
pub struct TurnLock<K: Kept> {
    pub(crate) table: Table<Option<K>, PassView<K::Entry>, Opening<K>, Law<K>, Global>,
    ghost sized: { (table.shared.table_id.words ≡ 2) × (table.shared.table_id.slots ≡ 1) },
}

/// A thread's leave to take turns, which it carries between them. In the history that a settled pass has seen, the entries that
/// bear its number are its own entries.
#[derive(Drop)]
pub struct Pass<K: Kept> {
    pub(crate) seat: Seat<Option<K>, PassView<K::Entry>>,
    ghost alive: { seat.me.0.spent ≡ false },
    ghost outside: { (seat.me.0.is_holder ≡ false) × (seat.me.1 ≡ []) },
    pub ghost own: { seat.me.0.settled ≡ true → Owns K.bearer seat.me.0.seen seat.me.0 },
}

/// The table's seat while it holds the turn and the empty slot.
pub struct Hold<K: Kept> {
    pub(crate) seat: Seat<Option<K>, PassView<K::Entry>>,
    ghost alive: { seat.me.0.spent ≡ false },
    ghost inside: { (seat.me.0.is_holder ≡ true) × (seat.me.1 ≡ (0, None) ∷ []) },
    pub ghost own: { Owns K.bearer seat.me.0.history seat.me.0 },
}

/// The value, while it is out. It is no `Drop`: a turn has to be handed back, by `put` or by `give_back`.
// The facts stand in `Hold`, since a struct with ghost fields can't lend a field.
pub struct Turn<K: Kept> {
    pub(crate) hold: Hold<K>,
    pub(crate) value: K,
}

/// The answer of one try: the turn, or the pass again.
pub enum Tried<K: Kept> {
    Won(Turn<K>),
    Lost(Pass<K>),
}
