//! The path from a pop that comes too late to the end of the plan.
ghost use Rattle.path_check.specs.{HasAccesses};

use crate::bounds::TooFew;
use crate::latest::{Latest, latest_of};
use engine_view::Engine;
use flow_word::{List, OutOfMemory, Place};
use std::alloc::Global;

/// A path of steps: a pop, the push that waits for it, and after each step the one that decides its latest clock.
///
/// It has no more steps than the plan's run. It takes memory for the path. `OutOfMemory` where memory ran out.
pub(crate) fn find_trail(
    alloc: Global,
    engine: &Engine,
    clock: u64,
    latest: &Latest,
    few: &TooFew,
) -> Result<List<Place>, OutOfMemory>
    requires { HasAccesses engine.now.graph.lanes engine.now.fifos.channels }
{
    let mut path = List::from_slice(alloc, &[few.pop])?;
    let mut at = few.push;
    for _ in 0..u64::MAX {
        path.push(at)?;
        match latest_of(engine, clock, latest, at) {
            Some(after) => match after.place {
                Some(next) => at = next,
                None => break,
            },
            None => break,
        }
    }
    Ok(path)
}
