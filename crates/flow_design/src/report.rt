//! Reports.
ghost use Rattle.std.specs.Prelude.{◌≡◌};
ghost use Rattle.flow_design.specs.{clock_of};

use flow_word::{Flags, Kind, List, Words};

/// How a simulation ends, with its clock.
#[derive(Clone, Copy, Debug, PartialEq, Eq)]
pub enum Verdict {
    /// All modules are ended: the latency in clocks.
    Done(u64),
    /// No module moves, and some are held.
    Deadlock(u64),
    /// The cycle limit was reached.
    Cycles(u64),
    /// No module moves, and one is spent: it reached the operation limit.
    Ops(u64),
}

impl Verdict {
    /// The clock of the verdict.
    pub fn clock(self) -> u64
        ensures { result ≡ clock_of self }
    {
        match self {
            Verdict::Done(clock) => clock,
            Verdict::Deadlock(clock) => clock,
            Verdict::Cycles(clock) => clock,
            Verdict::Ops(clock) => clock,
        }
    }
}

/// A held module, with the channel that holds it: the channel is full, or else empty.
#[derive(Clone, Copy, Debug, PartialEq, Eq)]
pub struct Held {
    pub module: u32,
    pub full: bool,
    pub channel: u32,
}

/// A FIFO operation that was done, with its clock.
#[derive(Clone, Copy, Debug, PartialEq, Eq)]
pub struct EventLine {
    pub module: u32,
    pub kind: Kind,
    pub channel: u32,
    pub cycle: u64,
}

/// The report of a simulation.
#[derive(Debug, Drop, PartialEq)]
pub struct Report {
    pub verdict: Verdict,
    /// The values in each sink in the verdict's clock, one entry per sink, in order.
    pub outputs: List<Words>,
    /// The modules that are held in the verdict's clock, in order.
    pub held: List<Held>,
    /// The FIFO operations done before the verdict's clock, ordered by clock, module and commit order.
    pub events: List<EventLine>,
    /// The query outcomes of each module before the verdict's clock, in order.
    pub answers: List<Flags>,
}
