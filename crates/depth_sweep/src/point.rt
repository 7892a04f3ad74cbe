//! One point of a grid of depths.
ghost use Rattle.std.specs.Prelude.{◌≡◌, ◌≤◌, ◌<◌, length, All, IfOk};
ghost use Rattle.flow_design.specs.declared.limits.TheConstants.{FIFO_DEPTH};
ghost use Rattle.depth_sweep.specs.{point, fifos};

use crate::fifos::set_depths;
use flow_design::{CheckedPlan, Verdict};
use flow_word::{OutOfMemory, TryCopy, Words};
use sim_core::{FinalCore, run_alone};
use std::alloc::Global;

/// The depths of a plan's FIFOs, in order of declaration, and the verdict of the plan with these depths.
#[derive(Debug, PartialEq)]
pub struct Point {
    pub depths: Words,
    pub verdict: Verdict,
}

impl Drop for Point {
    fn drop(self) {
        let Point {
            depths: _depths,
            verdict: _verdict,
        } = self;
    }
}

/// Simulates a copy of a plan with these depths for its FIFOs, whose channel numbers are `channels`. `OutOfMemory` where memory ran
/// out.
#[tactic(auto, unfolding(crate::specs::Grid::point, lockstep_defs::specs::Report::report))]
pub(crate) fn simulate(
    alloc: Global,
    plan: &CheckedPlan,
    channels: &[u32],
    depths: Words,
) -> Result<Point, OutOfMemory>
    requires channels { channels.now ≡ fifos plan.now }
    requires count { length depths ≡ length channels.now }
    requires limits { All (λ depth. (1 ≤ depth) × (depth ≤ FIFO_DEPTH)) depths }
    ensures { IfOk result (λ found. found ≡ point plan.now depths) }
{
    let mut own = plan.try_copy(alloc)?;
    set_depths(&mut own, channels, depths.as_slice());
    let core = run_alone(alloc, own)?;
    Ok(Point {
        depths,
        verdict: FinalCore::new(&core).verdict(),
    })
}
