//! A link of the chain that makes the latency.
use flow_word::Port;

/// A stretch of clocks that the chain spends in one module: the module moves in each of them.
#[derive(Clone, Copy, Debug, PartialEq, Eq)]
pub struct Link {
    pub module: u32,
    /// The first of these clocks.
    pub first: u64,
    /// The last of these clocks.
    pub last: u64,
    /// The port at which the module stalled in the clock before the first: it could not pop, or could not push. `None` at clock 0.
    pub crossed: Option<Port>,
}
