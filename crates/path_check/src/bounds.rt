//! Depths of FIFOs with which a plan ends late.
ghost use Rattle.std.specs.Prelude.{◌≡◌, ◌<◌, ◌≤◌, true, length, IfOk};
ghost use Rattle.path_check.specs.{Plan, is_fifo, kind_at, HasAccesses, AsksNothing, HoldsEnd, IsLateBelow};

use crate::latest::Latest;
use crate::paths::ends_after;
use crate::trails::find_trail;
use crate::waits::is_timed;
use engine_view::Engine;
use flow_design::Edit;
use flow_word::{OutOfMemory, Place, Side};
use std::alloc::Global;

/// A FIFO whose depth is to be lowered, and the clock by which the plan is to end.
#[derive(Clone, Copy)]
pub struct DepthTarget {
    pub channel: u32,
    pub clock: u64,
}

/// A depth such that with any smaller depth of this FIFO, the others keeping theirs, the plan ends after the target's clock. 1
/// where no such depth is found, and where the channel is no FIFO.
///
/// The engine holds the end of the plan's run, `depths` are the plan's, and no operation is a query. The latest clocks may be those
/// of the plan with deeper FIFOs: a result above 1 is shown by a path of steps, which is checked. It looks at each access to the
/// FIFO and each step of the path a few times, and takes memory for the path. `OutOfMemory` where memory ran out.
pub fn late_depth(
    alloc: Global,
    engine: &Engine,
    depths: &[u64],
    latest: &Latest,
    target: &DepthTarget,
) -> Result<u64, OutOfMemory>
    requires { HasAccesses engine.now.graph.lanes engine.now.fifos.channels }
    ensures { IfOk result (λ depth. (p : Plan) → HoldsEnd p engine.now → AsksNothing p
        → depths.now ≡ p.depths → is_fifo (kind_at p target.now.channel) ≡ true
        → IsLateBelow p target.now.clock target.now.channel depth) }
{
    let DepthTarget { channel, clock } = *target;
    if engine.fifos.len() <= channel || !engine.fifos.is_fifo(channel) {
        return Ok(1);
    }
    let Some(few) = too_few(engine, latest, channel) else {
        return Ok(1);
    };
    if few.depth == 0 || engine.fifos.depth(channel) <= few.depth {
        return Ok(1);
    }
    let edit = Edit {
        channel,
        depth: few.depth,
    };
    let path = find_trail(alloc, engine, clock, latest, &few)?;
    if ends_after(engine, depths, Some(edit), path.as_slice(), clock) {
        return Ok(few.depth + 1);
    }
    Ok(1)
}

/// A depth of a FIFO with which one of its pushes comes too late, with that push and the pop that it waits for.
#[derive(Clone, Copy)]
pub(crate) struct TooFew {
    pub(crate) depth: u64,
    /// The push that comes too late.
    pub(crate) push: Place,
    /// The pop that this push waits for.
    pub(crate) pop: Place,
}

/// The greatest depth of a FIFO with which a push waits for a pop that comes no sooner than the push's latest clock. `None` where
/// each depth is enough.
fn too_few(engine: &Engine, latest: &Latest, channel: u32) -> Option<TooFew>
    requires { channel < length engine.now.fifos.channels }
{
    let mut found = None;
    let mut depth = 1u64;
    let mut popped = 0u64;
    for pushed in 0..engine.fifos.pushes(channel) {
        let push = engine.fifos.place(channel, Side::Push, pushed)?;
        popped = popped_before(engine, channel, popped, pushed, latest.at(push));
        let room = pushed - popped;
        if depth <= room {
            depth = room;
            let pop = engine.fifos.place(channel, Side::Pop, popped)?;
            found = Some(TooFew { depth, push, pop });
        }
    }
    found
}

/// How many of a FIFO's first `most` pops come before a clock. The first `popped` are known to.
fn popped_before(engine: &Engine, channel: u32, popped: u64, most: u64, clock: u64) -> u64
    requires channel { channel < length engine.now.fifos.channels }
    requires most { popped ≤ most }
    ensures { result ≤ most }
{
    for before in popped..most {
        if !is_before(engine, channel, before, clock) {
            return before;
        }
    }
    most
}

/// Whether the pop with this number, counted from 0, of a FIFO is done before a clock.
fn is_before(engine: &Engine, channel: u32, before: u64, clock: u64) -> bool
    requires { channel < length engine.now.fifos.channels }
{
    match engine.fifos.place(channel, Side::Pop, before) {
        Some(pop) if is_timed(engine, pop) => { engine.graph.cycle_of(pop).unwrap_or(0) < clock }
        Some(_) | None => false,
    }
}
