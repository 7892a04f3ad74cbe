//! Finds a cut of a plan with these depths.
ghost use Rattle.std.specs.Prelude.{IfOk, IfSome};
ghost use Rattle.depth_cuts.specs.{Plan, HasAccesses, AreDepths, AsksNothing, HoldsEnd, AreDeepest, IsCutFor};

use crate::cuts::Cut;
use crate::late::is_late;
use crate::raised::{are_raised, deeper_ones};
use crate::raising::raise_all;
use crate::trails::find_trail;
use engine_view::Engine;
use flow_word::OutOfMemory;
use std::alloc::Global;

/// FIFOs at least one of which must be deeper than it is with these depths, so that the plan ends by a clock. `None` where no such
/// cut is found, for example because the plan does end by that clock.
///
/// The engine holds the end of the plan's run with FIFOs as deep as the language allows, and no operation is a query. A path of
/// steps, which is checked, shows that the cut is right. `OutOfMemory` where memory ran out.
pub fn find_cut(
    alloc: Global,
    engine: &Engine,
    depths: &[u64],
    clock: u64,
) -> Result<Option<Cut>, OutOfMemory>
    requires { HasAccesses engine.now.graph.lanes engine.now.fifos.channels }
    ensures { IfOk result (λ found. IfSome found (λ cut. (p : Plan)
        → HoldsEnd p engine.now → AsksNothing p → AreDeepest p → AreDepths p depths.now
        → IsCutFor p clock depths.now cut)) }
{
    let Some(mut trail) = find_trail(alloc, engine, depths, clock)? else {
        return Ok(None);
    };
    raise_all(alloc, engine, &mut trail, clock)?;
    if !are_raised(depths, trail.depths.as_slice()) || !is_late(engine, &trail, clock) {
        return Ok(None);
    }
    let cut = deeper_ones(alloc, trail.depths.as_slice())?;
    Ok(Some(cut))
}
