//! The cycle of a step that has none yet, as far as it is known.

/// What is known of the cycle of a module's first step without a cycle.
#[derive(Clone, Copy, Debug, PartialEq, Eq)]
pub enum Candidate {
    /// The cycle is determined, and below the cycle limit.
    At(u64),
    /// The blocking access with this number, counted from 0 in commit order, waits for an event that has no cycle.
    Waits(u32),
    /// The cycle is determined, and not below the cycle limit.
    Beyond,
    /// There is no such step: every step has its cycle.
    Nothing,
}
