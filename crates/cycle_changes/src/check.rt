//! The check: whether new cycles are right, as seen from the steps that changed.
ghost use Rattle.std.specs.Prelude.{◌≡◌, suc, ◌<◌, ◌≤◌, true, length, slice_index_or, All};
ghost use Rattle.cycle_changes.specs.{HasStep, lane_at, cycle_bound, held_in, IsSomeCore, first_of, IsLooked, IsLookedAround, NoneIsDue};

use crate::looking::look;
use crate::reach::are_waiting_right;
use crate::timed::has_cycle;
use engine_view::Engine;
use event_graph::{Candidate, Graph, Place};
use time_engine::candidate;

/// Whether all that a change of a step's cycle can reach is right: the step itself, which must be below the limit, the next step of
/// its module, and each step that waits for it.
///
/// It is also false where there is no such step with a cycle, or where the step takes at a FIFO at whose other side no step takes.
/// It takes no memory.
pub fn is_right_around(engine: &Engine, at: Place, limit: u64) -> bool
    requires core { IsSomeCore engine.now }
    ensures { result ≡ true → IsLookedAround (held_in engine.now) limit at }
{
    if !has_cycle(&engine.graph, at) {
        return false;
    }
    if !is_below(&engine.graph, at, limit) {
        return false;
    }
    if !look(engine, at) {
        return false;
    }
    if !is_next_right(engine, at) {
        return false;
    }
    are_waiting_right(engine, at)
}

/// Whether each of these places has a step with a cycle, and that step is right.
pub fn are_right(engine: &Engine, places: &[Place]) -> bool
    requires core { IsSomeCore engine.now }
    ensures { result ≡ true → All (λ p. IsLooked (held_in engine.now) p.module p.step) places.now }
{
    for place in places {
        if !is_right(engine, *place) {
            return false;
        }
    }
    true
}

/// Whether the place has a step with a cycle, and that step is right.
fn is_right(engine: &Engine, at: Place) -> bool
    requires core { IsSomeCore engine.now }
    ensures { result ≡ true → IsLooked (held_in engine.now) at.module at.step }
{
    if !has_cycle(&engine.graph, at) {
        return false;
    }
    look(engine, at)
}

/// Whether no module's first step without a cycle is determined below the limit. It looks at one step of each module.
pub fn are_late(engine: &Engine, limit: u64) -> bool
    requires limit { limit ≤ cycle_bound }
    requires core { IsSomeCore engine.now }
    ensures { result ≡ true → NoneIsDue (held_in engine.now) limit }
{
    for owner in 0..engine.graph.modules() {
        if let Candidate::At(_) = candidate(&engine.graph, &engine.fifos, owner, limit) {
            return false;
        }
    }
    true
}

/// Whether a step's cycle is below the limit.
fn is_below(graph: &Graph, at: Place, limit: u64) -> bool
    requires there { HasStep graph.now.lanes at }
    requires timed { at.step < length (lane_at graph.now.lanes at.module).cycles }
    ensures { result ≡ true → slice_index_or (lane_at graph.now.lanes at.module).cycles at.step 0 < limit }
{
    match graph.cycle_of(at) {
        Some(cycle) => cycle < limit,
        None => false,
    }
}

/// Whether the next step of the module after this one is right, if it has a cycle.
fn is_next_right(engine: &Engine, at: Place) -> bool
    requires there { HasStep engine.now.graph.lanes at }
    requires timed { at.step < length (lane_at engine.now.graph.lanes at.module).cycles }
    requires core { IsSomeCore engine.now }
    ensures { result ≡ true → suc at.step < first_of (held_in engine.now) at.module
        → IsLooked (held_in engine.now) at.module (suc at.step) }
{
    let frontier = engine.graph.frontier(at.module);
    let step = at.step + 1;
    if step == frontier {
        return true;
    }
    look(
        engine,
        Place {
            module: at.module,
            step,
        },
    )
}
