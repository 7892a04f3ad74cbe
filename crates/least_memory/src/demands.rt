//! Demands that all depths with which a plan ends by a clock meet.
ghost use Rattle.std.specs.Prelude.{◌≡◌, ◌<◌, ◌≤◌, true, length, All, IfOk};
ghost use Rattle.least_memory.specs.{is_fifo, kind_at, IsLateBelow, verdict, AsksNothing, IsDoneBy, AreDeepest, IsCheapest, widths_of};
ghost use Rattle.least_memory.specs.{IsFloor, AreNeeded};

use depth_cuts::{Demands, cheapest};
use depth_session::FinalCore;
use flow_design::Channel;
use flow_design::limits::FIFO_DEPTH;
use flow_word::{List, OutOfMemory, Words};
use path_check::{DepthTarget, Latest, find_latest, late_depth};
use std::alloc::Global;

/// The first demands on depths with which a core's plan ends by a clock. They have no cut yet; for each FIFO they have the least
/// depth that a path of steps shows to be needed, where the others are as deep as in the plan.
///
/// It takes memory for a number of each step of the core, and frees it. `OutOfMemory` where memory ran out.
pub(crate) fn first_demands(
    alloc: Global,
    core: &FinalCore<'_>,
    clock: u64,
) -> Result<Demands, OutOfMemory>
    requires quiet { AsksNothing core.now.plan }
    requires deepest { AreDeepest core.now.plan }
    ensures { IfOk result (λ demands. AreNeeded core.now.plan clock demands) }
{
    core.agrees();
    let latest = find_latest(alloc, core.engine(), clock)?;
    let channels = core.plan().design.channels.as_slice();
    let widths = widths_of(alloc, channels)?;
    let mut floors = List::with_room(alloc, channels.len() as u64)?;
    for channel in 0..channels.len() {
        floors.push(floor_of(alloc, core, &latest, channel as u32, clock)?)?;
    }
    Ok(Demands {
        widths,
        floors,
        cuts: List::new(alloc),
    })
}

/// One entry per channel: how many bits an element of it has. `OutOfMemory` where memory ran out.
pub(crate) fn widths_of(alloc: Global, channels: &[Channel]) -> Result<Words, OutOfMemory>
    ensures value { IfOk result (λ widths. widths ≡ widths_of channels.now) }
    ensures narrow { IfOk result (λ widths. All (λ w. w ≤ 64) widths) }
{
    let mut widths = List::with_room(alloc, channels.len() as u64)?;
    for channel in channels {
        widths.push(channel.width.number())?;
    }
    Ok(widths)
}

/// The least depth of a FIFO that is shown to be needed; 0 for a channel of another kind. `OutOfMemory` where memory ran out.
fn floor_of(
    alloc: Global,
    core: &FinalCore<'_>,
    latest: &Latest,
    channel: u32,
    clock: u64,
) -> Result<u64, OutOfMemory>
    requires quiet { AsksNothing core.now.plan }
    requires deepest { AreDeepest core.now.plan }
    requires channel { channel < length core.now.plan.design.channels }
    ensures { IfOk result (λ floor. IsFloor core.now.plan clock channel floor) }
{
    core.agrees();
    if !is_fifo(core, channel) {
        return Ok(0);
    }
    let target = DepthTarget { channel, clock };
    let depth = late_of(alloc, core, latest, &target)?;
    Ok(depth.max(1).min(FIFO_DEPTH))
}

/// Whether a channel of the core's plan is a FIFO.
fn is_fifo(core: &FinalCore<'_>, channel: u32) -> bool
    requires { channel < length core.now.plan.design.channels }
    ensures { result ≡ is_fifo (kind_at core.now.plan channel) }
{
    core.plan().design.channels.as_slice()[channel as usize]
        .kind
        .is_fifo()
}

/// A depth of a FIFO such that with any smaller one the core's plan is not done by the target's clock. It takes memory for a path
/// of steps. `OutOfMemory` where memory ran out.
fn late_of(
    alloc: Global,
    core: &FinalCore<'_>,
    latest: &Latest,
    target: &DepthTarget,
) -> Result<u64, OutOfMemory>
    requires quiet { AsksNothing core.now.plan }
    requires fifo { is_fifo (kind_at core.now.plan target.now.channel) ≡ true }
    ensures { IfOk result (λ depth. IsLateBelow core.now.plan target.now.clock target.now.channel depth) }
{
    late_depth(
        alloc,
        core.engine(),
        core.plan().depths.as_slice(),
        latest,
        target,
    )
}

/// The cheapest depths that meet demands which the plan's own depths are known to meet. `OutOfMemory` where memory ran out.
pub(crate) fn cheapest_of(
    alloc: Global,
    core: &FinalCore<'_>,
    demands: &Demands,
    clock: u64,
) -> Result<Words, OutOfMemory>
    requires needed { AreNeeded core.now.plan clock demands.now }
    requires done { IsDoneBy clock (verdict core.now.plan) }
    ensures { IfOk result (λ depths. IsCheapest demands.now depths) }
{
    core.agrees();
    match cheapest(alloc, demands)? {
        Some(depths) => Ok(depths),
        None => unreachable!("the plan's own depths meet the demands"),
    }
}
