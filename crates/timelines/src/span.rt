//! Spans: what a module does, from which clock on and up to which clock.
use flow_word::Port;

/// What a module that is not over does in a clock.
#[derive(Clone, Copy, Debug, PartialEq, Eq)]
pub enum Doing {
    Moves,
    /// The module stalls: it cannot pop, or cannot push, at this port, the cause of the stall.
    Still(Port),
}

/// An interval of clocks in which a module does the same.
#[derive(Clone, Copy, Debug, PartialEq, Eq)]
pub struct Span {
    /// The first clock of the span.
    pub first: u64,
    /// The clock after the last of the span.
    pub until: u64,
    pub doing: Doing,
}
