//! The FIFOs of a plan, and how to give them other depths.
ghost use Rattle.std.specs.Prelude.{◌≡◌, ◌<◌, ◌≤◌, length, All, IfOk};
ghost use Rattle.depth_sweep.specs.{is_fifo, kind_at, with_fifo_depths, fifos};
ghost use Rattle.flow_design.specs.declared.limits.TheConstants.{FIFO_DEPTH};

use flow_design::{CheckedPlan, Edit};
use flow_word::OutOfMemory;
use outcome_guard::edits_in_order;
use std::alloc::Global;

/// Whether a channel is a FIFO.
fn is_fifo(plan: &CheckedPlan, channel: usize) -> bool
    requires { channel < length plan.now.design.channels }
    ensures { result ≡ is_fifo (kind_at plan.now channel) }
{
    plan.channels()[channel].kind.is_fifo()
}

/// How many FIFOs a plan has.
pub(crate) fn fifo_count(plan: &CheckedPlan) -> u64
    ensures { result ≡ length (fifos plan.now) }
{
    let mut count = 0;
    for channel in 0..plan.channels().len() {
        if is_fifo(plan, channel) {
            count += 1;
        }
    }
    count
}

/// The numbers of a plan's FIFOs, in order of declaration. `OutOfMemory` where memory ran out.
pub(crate) fn fifos(alloc: Global, plan: &CheckedPlan) -> Result<Vec<u32>, OutOfMemory>
    ensures { IfOk result (λ channels. channels.items ≡ fifos plan.now) }
{
    plan.fits();
    let mut channels = Vec::new(alloc);
    for channel in 0..plan.channels().len() {
        if is_fifo(plan, channel) {
            channels.push(channel as u32)?;
        }
    }
    Ok(channels)
}

/// Sets the depths of the FIFOs, whose channel numbers are `channels`.
pub(crate) fn set_depths(plan: &mut CheckedPlan, channels: &[u32], depths: &[u64])
    requires channels { channels.now ≡ fifos plan.old }
    requires count { length depths.now ≡ length channels.now }
    requires limits { All (λ depth. (1 ≤ depth) × (depth ≤ FIFO_DEPTH)) depths.now }
    ensures { plan.new ≡ with_fifo_depths plan.old depths.now }
{
    edits_in_order();
    plan.fits();
    for at in 0..channels.len() {
        let edit = Edit {
            channel: channels[at],
            depth: depths[at],
        };
        plan.edit(&edit);
    }
}
