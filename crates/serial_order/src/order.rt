//! The answer to the question whether a module is serial.

/// Something that operations use: a register, a memory, or one end of a channel. The number is that of the module's register or
/// memory, or that of the channel.
#[derive(Clone, Copy, Debug, PartialEq, Eq)]
pub enum Used {
    Register(u32),
    Memory(u32),
    /// The end of a channel at which elements are popped.
    Reading(u32),
    /// The end of a channel at which elements are pushed.
    Writing(u32),
}

/// Whether a module is serial, or else the first rule that it breaks.
#[derive(Clone, Copy, Debug, PartialEq, Eq)]
pub enum Order {
    /// The module's pipelined loops do what they would do with one iteration after the other.
    Serial,
    /// In this block this operation, counted from 0 in text order, is a query.
    Query { block: u32, operation: u32 },
    /// In this loop this operation writes the loop's register at an offset of II or more.
    Late { block: u32, operation: u32 },
    /// In this loop the last offset at which this thing is used is more than II after the first one; or it is exactly II after it,
    /// and an operation at the last offset writes the thing.
    Wide { block: u32, used: Used },
}
