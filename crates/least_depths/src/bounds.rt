//! Depths below which the plan of a session is known to end too late.
ghost use Rattle.std.specs.Prelude.{◌≡◌, ◌<◌, true, IsSome};
ghost use Rattle.least_depths.specs.{is_fifo, kind_at, AsksNothing, IsLateBelow};

use depth_session::DepthSession;
use path_check::{DepthTarget, Latest, asks_nothing, find_latest, late_depth};
use std::alloc::Global;

/// The latest clocks in which the steps of a session's plan may be done so that it ends by a clock. `None` where an operation is a
/// query, and where memory ran out.
///
/// It takes memory for a number of each step.
pub(crate) fn latest_clocks(alloc: Global, session: &DepthSession, clock: u64) -> Option<Latest>
    requires { session.now.live ≡ true }
    ensures { IsSome result → AsksNothing session.now.plan }
{
    let core = session.core();
    if !asks_nothing(core.plan()) {
        return None;
    }
    find_latest(alloc, core.engine(), clock).ok()
}

/// A depth of a FIFO such that with any smaller one the session's plan is not done by the target's clock. 1 where no such depth is
/// found, and where memory ran out.
///
/// It takes memory for a path of steps, and frees it.
pub(crate) fn late_below(
    alloc: Global,
    session: &DepthSession,
    latest: &Option<Latest>,
    target: &DepthTarget,
) -> u64
    requires live { session.now.live ≡ true }
    requires quiet { IsSome latest.now → AsksNothing session.now.plan }
    requires fifo { is_fifo (kind_at session.now.plan target.now.channel) ≡ true }
    ensures late { IsLateBelow session.now.plan target.now.clock target.now.channel result }
    ensures quiet { 1 < result → AsksNothing session.now.plan }
{
    match latest {
        Some(latest) => {
            let core = session.core();
            let found = late_depth(
                alloc,
                core.engine(),
                core.plan().depths.as_slice(),
                latest,
                target,
            );
            found.unwrap_or(1)
        }
        None => 1,
    }
}
