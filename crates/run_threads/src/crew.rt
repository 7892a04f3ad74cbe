//! What modules are driven with.
use crate::wakers::Wakers;
use sim_hub::Hub;
use std::alloc::Global;

/// What the caller and the threads drive modules with.
#[derive(Drop)]
pub struct Crew<'e, G, R> {
    pub rt: &'e R,
    pub alloc: Global,
    pub hub: &'e Hub,
    pub gate: &'e G,
    pub wakers: &'e Wakers,
}
