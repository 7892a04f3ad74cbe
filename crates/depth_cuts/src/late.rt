//! Whether a path shows that a plan ends late.
ghost use Rattle.std.specs.Prelude.{◌≡◌, true};
ghost use Rattle.depth_cuts.specs.{Plan, verdict, HasAccesses, with_depths, IsDoneBy, IsTried};

use crate::trails::Trail;
use engine_view::Engine;
use path_check::{ends_after, never_ends};

/// Whether a path shows that the plan, with the depths of the path, ends after a clock or never.
pub(crate) fn is_late(engine: &Engine, trail: &Trail, clock: u64) -> bool
    requires { HasAccesses engine.now.graph.lanes engine.now.fifos.channels }
    ensures { result ≡ true → (p : Plan) → IsTried p engine.now trail.now.depths
        → IsDoneBy clock (verdict (with_depths p trail.now.depths)) → ⊥ }
{
    let depths = trail.depths.as_slice();
    let path = trail.path.as_slice();
    ends_after(engine, depths, None, path, clock) || never_ends(engine, depths, None, path)
}
