//! Raises depths as far as a plan still ends late with them.
ghost use Rattle.depth_cuts.specs.{HasAccesses};

use crate::clocks::{item, put};
use crate::cuts::Need;
use crate::late::is_late;
use crate::trails::{Trail, find_trail};
use engine_view::Engine;
use flow_design::limits::FIFO_DEPTH;
use flow_word::{List, OutOfMemory};
use std::alloc::Global;

/// Raises the depths of a trail, channel by channel, as far as the plan still ends late with them. The fewer FIFOs the path waits
/// for places in, and the deeper they are, the more its cut says.
///
/// For each FIFO that the path waits for, it makes as many trails as the depth has binary digits, a few times. After `OutOfMemory`
/// some of the depths are raised.
pub(crate) fn raise_all(
    alloc: Global,
    engine: &Engine,
    trail: &mut Trail,
    clock: u64,
) -> Result<(), OutOfMemory>
    requires { HasAccesses engine.now.graph.lanes engine.now.fifos.channels }
{
    let mut channel = 0u32;
    for _ in 0..trail.depths.len() {
        raise_one(alloc, engine, trail, channel, clock)?;
        channel = channel.saturating_add(1);
    }
    Ok(())
}

/// Raises the depth of a channel as far as the plan still ends late with it. It tries the greatest depth first, then steps that
/// double, then steps that halve.
fn raise_one(
    alloc: Global,
    engine: &Engine,
    trail: &mut Trail,
    channel: u32,
    clock: u64,
) -> Result<(), OutOfMemory>
    requires { HasAccesses engine.now.graph.lanes engine.now.fifos.channels }
{
    let mut bounds = Bounds::new(item(trail.depths.as_slice(), channel as u64));
    for _ in 0..u64::MAX {
        let Some(depth) = bounds.next() else {
            break;
        };
        let raised = Need { channel, depth };
        if try_depth(alloc, engine, trail, raised, clock)? {
            bounds.is_late(item(trail.depths.as_slice(), channel as u64));
        } else {
            bounds.is_not_late(depth);
        }
    }
    Ok(())
}

/// Makes a trail with another depth of a channel, and returns whether the plan is late with it. If it is not, the trail stays as it
/// was.
fn try_depth(
    alloc: Global,
    engine: &Engine,
    trail: &mut Trail,
    raised: Need,
    clock: u64,
) -> Result<bool, OutOfMemory>
    requires { HasAccesses engine.now.graph.lanes engine.now.fifos.channels }
{
    let mut depths = List::from_slice(alloc, trail.depths.as_slice())?;
    put(depths.as_mut_slice(), raised.channel as u64, raised.depth);
    match find_trail(alloc, engine, depths.as_slice(), clock)? {
        Some(found) if is_late(engine, &found, clock) => {
            *trail = found;
            Ok(true)
        }
        Some(_) | None => Ok(false),
    }
}

/// With which depths of a channel the plan is known to be late, and with which it is not.
#[derive(Clone, Copy)]
struct Bounds {
    /// The greatest depth with which the plan is known to be late.
    late: u64,
    /// The least depth with which the plan does not seem late; one more than the language allows where none is known.
    timely: u64,
    /// How much above `late` the next depth to try is; 0 where the search is over.
    step: u64,
}

impl Bounds {
    /// The plan is late with this depth. The greatest depth is tried next; none is for a channel without a depth.
    fn new(late: u64) -> Bounds {
        Bounds {
            late,
            timely: FIFO_DEPTH + 1,
            step: if late == 0 {
                0
            } else {
                FIFO_DEPTH.saturating_sub(late)
            },
        }
    }

    /// The next depth to try. `None` where the search is over.
    fn next(&self) -> Option<u64> {
        if self.step == 0 {
            return None;
        }
        Some(self.late.saturating_add(self.step))
    }

    /// Half of the depths with which it is not known whether the plan is late.
    fn half(&self) -> u64 {
        self.timely.saturating_sub(self.late) / 2
    }

    /// Notes that the plan is late with this depth. The next step is twice as long, but at most half of the unknown depths.
    fn is_late(&mut self, depth: u64) {
        self.late = depth;
        self.step = self.step.saturating_mul(2).min(self.half());
    }

    /// Notes that the plan does not seem late with this depth. The next step is half of the unknown depths; after the greatest
    /// depth it is 1.
    fn is_not_late(&mut self, depth: u64) {
        self.timely = depth;
        self.step = self.half();
        if FIFO_DEPTH <= depth {
            self.step = self.step.min(1);
        }
    }
}
