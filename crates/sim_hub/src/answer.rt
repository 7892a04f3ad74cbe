//! The answers of a hub's calls.
use sim_core::{Core, Task};
use timing_bridge::HubTurn;

/// What a module's pass gets when it asks for a desk.
#[derive(Drop)]
pub enum Desk {
    /// The module's run, lent with its mail.
    Run(Task),
    /// No Run of the module is permitted yet, in a history of this many entries.
    Held(u64),
    /// The core is final.
    Over,
    /// Memory ran out, in this turn or before.
    Short,
}

/// What the performance pass gets for a turn.
#[derive(Clone, Copy, Debug, PartialEq, Eq)]
pub enum PerfAnswer {
    /// The turn did this many actions.
    Did(u64),
    /// No action but a Run is permitted, in a history of this many entries.
    Idle(u64),
    /// The core is final.
    Over,
    /// Memory ran out, in this turn or before.
    Short,
}

/// A core with all turns that led to it, in order.
#[derive(Drop)]
pub struct Threaded {
    pub core: Core,
    pub turns: Vec<HubTurn>,
}

/// What is left when a hub is closed.
#[derive(Drop)]
pub enum Closed {
    /// A final core, with all turns that led to it.
    Final(Threaded),
    /// Nothing: memory ran out.
    Short,
}
