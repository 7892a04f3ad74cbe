//! What simulations run on.
use std::alloc::Global;

/// The runtime with its threads, the allocator, and the gate that makes the bursts of modules.
#[derive(Drop)]
pub(crate) struct Host<'a, R, G> {
    pub(crate) rt: &'a R,
    pub(crate) alloc: Global,
    pub(crate) gate: &'a G,
}
