//! Depths that are raised from given ones.
ghost use Rattle.std.specs.Prelude.{◌≡◌, ◌<◌, ◌^◌, true, length, IfOk};
ghost use Rattle.depth_cuts.specs.{IsRaised, AreRaised, AreNext};

use crate::cuts::{Cut, Need};
use flow_design::limits::FIFO_DEPTH;
use flow_word::{List, OutOfMemory};
use std::alloc::Global;

/// Whether the lists are of one length and each depth is raised: no less than the given one and within the language's limit, or 0
/// where that is 0.
pub(crate) fn are_raised(depths: &[u64], raised: &[u64]) -> bool
    ensures { result ≡ true → AreRaised depths.now raised.now }
{
    if depths.len() != raised.len() || u32::MAX as usize <= raised.len() {
        return false;
    }
    for channel in 0..depths.len() {
        if !is_raised(depths[channel], raised[channel]) {
            return false;
        }
    }
    true
}

/// Whether `raised` is no less than `depth` and within the language's limit, or 0 where `depth` is 0.
fn is_raised(depth: u64, raised: u64) -> bool
    ensures { result ≡ true → IsRaised depth raised }
{
    if depth == 0 {
        return raised == 0;
    }
    depth <= raised && raised <= FIFO_DEPTH
}

/// The cut that is met if one FIFO is deeper than now, of those that the language allows to be deeper. `OutOfMemory` where memory
/// ran out.
pub fn deeper_ones(alloc: Global, depths: &[u64]) -> Result<Cut, OutOfMemory>
    requires { length depths.now < 2 ^ 32 }
    ensures { IfOk result (λ cut. AreNext depths.now (length depths.now) cut.needs) }
{
    let mut needs = List::new(alloc);
    for channel in 0..depths.len() {
        let depth = depths[channel];
        if 0 < depth && depth < FIFO_DEPTH {
            needs.push(Need {
                channel: channel as u32,
                depth: depth + 1,
            })?;
        }
    }
    Ok(Cut { needs })
}
