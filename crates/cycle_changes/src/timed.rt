//! Whether a step has a cycle.
ghost use Rattle.std.specs.Prelude.{◌≡◌, ◌<◌, true, length};
ghost use Rattle.cycle_changes.specs.{HasStep, IsSoundLane, lane_at};

use event_graph::{Graph, Place};

/// Whether there is a step with a cycle at this place.
pub fn has_cycle(graph: &Graph, at: Place) -> bool
    ensures there { result ≡ true → HasStep graph.now.lanes at }
    ensures timed { result ≡ true → at.step < length (lane_at graph.now.lanes at.module).cycles }
    ensures sound { result ≡ true → IsSoundLane (lane_at graph.now.lanes at.module) }
{
    at.module < graph.modules() && at.step < graph.frontier(at.module)
}
