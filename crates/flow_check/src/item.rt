//! The parts of a plan that may break a rule.

/// A part of a block that may break a rule.
#[derive(Clone, Copy, Debug, PartialEq, Eq)]
pub enum Spot {
    /// The statement that begins the block.
    Head,
    /// The operation of its body with this number.
    Operation(u64),
    /// The terminator of its body.
    Terminator,
}

/// A part of a plan that may break a rule.
#[derive(Clone, Copy, Debug, PartialEq, Eq)]
pub enum Item {
    /// The limits.
    Limits,
    /// The channel with this number.
    Channel(u64),
    /// A spot of a block: the module's number, the block's number, and the spot.
    InModule(u64, (u64, Spot)),
}
