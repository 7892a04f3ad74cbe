//! What a seat at the table knows. No value of these types is ever made: only contracts speak of them.
use std::collections::LinkedList;

/// A pass that was joined into the first pass.
pub struct Joined<E> {
    pub number: u64,
    /// The pass's own entries.
    pub own: LinkedList<E>,
    /// The history that the pass had seen.
    pub seen: LinkedList<E>,
    /// The history that the first pass had seen before the join.
    pub before: LinkedList<E>,
}

/// What a pass knows, during a turn or between two.
pub struct PassView<E> {
    /// Whether the pass was joined into another, and so exists no more.
    pub spent: bool,
    /// The pass's number, which its entries bear.
    pub number: u64,
    /// For how many passes the lock was made. Every pass has a number below it.
    pub passes: u64,
    /// How many passes the pass with number 0 has made.
    pub made: u64,
    /// The beginning of the history that the pass has seen.
    pub seen: LinkedList<E>,
    /// The entries that the pass put, in their order.
    pub own: LinkedList<E>,
    /// Whether what the pass has seen came with a turn or with its making, and not from a pass that was joined into it.
    pub settled: bool,
    /// The passes that were joined into the pass with number 0, in their order.
    pub joined: LinkedList<Joined<E>>,
    /// How many turns the pass has handed back.
    pub turns: u64,
    /// How many tries of the pass found the turn taken.
    pub lost: u64,
    /// Whether the pass holds the turn.
    pub is_holder: bool,
    /// The history of the value, while the pass holds the turn.
    pub history: LinkedList<E>,
}
