//! Whether a step waits for another.
ghost use Rattle.std.specs.Prelude.{◌≡◌, ◌<◌, true, length, slice_index, All, IfSome};
ghost use Rattle.path_check.specs.{Plan, HasStep, IsAccess, HasAccesses, held_in, IsTried, depths_with, free_with, WaitsFor, OneWaits};
ghost use Rattle.path_check.specs.{IsTimedAt, ComesLater};

use engine_view::Engine;
use event_graph::LaneAccesses;
use flow_design::Edit;
use flow_word::{Access, Place, Side};

/// Whether a place names a step that has a cycle. It takes no memory.
#[inline(always)]
pub fn is_timed(engine: &Engine, place: Place) -> bool
    ensures timed { result ≡ true → IsTimedAt engine.now.graph.lanes place }
    ensures step { result ≡ true → HasStep engine.now.graph.lanes place }
{
    place.module < engine.graph.modules() && place.step < engine.graph.frontier(place.module)
}

/// How many clocks a step comes after another that it waits for, with these depths and the edit. A step waits for another if it is
/// the next step of the same module, or if one of its accesses waits for a pop or a push that is in the other step or a later one
/// of that module. `None` where it does neither.
///
/// It looks at each access of the step once.
pub(crate) fn clocks_between(
    engine: &Engine,
    depths: &[u64],
    edit: Option<Edit>,
    before: Place,
    next: Place,
) -> Option<u64>
    requires accesses { HasAccesses engine.now.graph.lanes engine.now.fifos.channels }
    requires before { IsTimedAt engine.now.graph.lanes before }
    requires next { IsTimedAt engine.now.graph.lanes next }
    ensures { IfSome result (λ clocks. (p : Plan) → IsTried p engine.now (depths_with depths.now edit)
        → ComesLater p (held_in engine.now) (depths_with depths.now edit) before next clocks) }
{
    let step = engine.graph.look(next);
    if next.module == before.module && before.step < next.step && next.step - before.step == 1 {
        return Some(step.gap);
    }
    find_lag(engine, depths, edit, &step.accesses, before)
}

/// The lag of the first of these accesses that waits for the step at a place, or for a later one of its module. `None` where no
/// access does.
fn find_lag(
    engine: &Engine,
    depths: &[u64],
    edit: Option<Edit>,
    accesses: &LaneAccesses<'_>,
    place: Place,
) -> Option<u64>
    requires { All (IsAccess engine.now.fifos.channels) accesses.now }
    ensures { IfSome result (λ lag. OneWaits engine.now.fifos.channels (depths_with depths.now edit) accesses.now place lag) }
{
    for access in accesses.iter() {
        if let Some(lag) = lag_after(engine, depths, edit, &access, place) {
            return Some(lag);
        }
    }
    None
}

/// How many clocks after the step at a place an access becomes possible, where it waits for that step or a later one of its module.
/// `None` where it does not.
fn lag_after(
    engine: &Engine,
    depths: &[u64],
    edit: Option<Edit>,
    access: &Access,
    place: Place,
) -> Option<u64>
    requires { IsAccess engine.now.fifos.channels access.now }
    ensures { IfSome result (λ lag. WaitsFor engine.now.fifos.channels (depths_with depths.now edit) access.now place lag) }
{
    let fifos = &engine.fifos;
    if !access.kind.is_blocking() || !fifos.is_fifo(access.channel) {
        return None;
    }
    let side = access.kind.side();
    let free = free_with(engine, depths, edit, side, access.channel);
    if access.ordinal <= free {
        return None;
    }
    match fifos.place(access.channel, side.other(), access.ordinal - free - 1) {
        Some(at) if at.module == place.module && place.step <= at.step => {
            Some(fifos.lag(access.channel, side))
        }
        Some(_) | None => None,
    }
}

/// How many of a channel's first pops, or pushes, wait for no access of the other side, with these depths and the edit.
fn free_with(engine: &Engine, depths: &[u64], edit: Option<Edit>, side: Side, channel: u32) -> u64
    requires { channel < length engine.now.fifos.channels }
    ensures { result ≡ free_with engine.now.fifos.channels (depths_with depths.now edit) side channel }
{
    match side {
        Side::Push => depth_with(depths, edit, channel),
        Side::Pop => engine.fifos.free(channel, side),
    }
}

/// The depth of a channel with the edit; 0 where the list has no such channel.
fn depth_with(depths: &[u64], edit: Option<Edit>, channel: u32) -> u64
    ensures { result ≡ slice_index (depths_with depths.now edit) channel }
{
    let stands = depths.get(channel as usize).copied();
    match edit {
        Some(edit) if edit.channel == channel && stands.is_some() => edit.depth,
        Some(_) | None => stands.unwrap_or(0),
    }
}
