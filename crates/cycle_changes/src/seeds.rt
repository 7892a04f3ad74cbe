//! The steps in which a new depth is felt.
ghost use Rattle.std.specs.Prelude.{◌≡◌, ◌<◌, ◌⊎◌, true, length, Contains};
ghost use Rattle.cycle_changes.specs.{Place as place, HasStep, step_of, held_in, IsSomeCore, first_of, IsLooked, HasAccessAt, AreSeeds};

use crate::reach::is_right_or_elsewhere;
use engine_view::Engine;
use event_graph::Place;
use flow_word::{Port, Side};

/// Adds the steps at a FIFO's pushing side in which its new depth is felt: with the old cycles they are no longer right. It looks
/// at each step of the module that pushes the FIFO.
///
/// False where memory runs out, or where no step pushes the FIFO.
pub fn find_seeds(engine: &Engine, channel: u32, seeds: &mut Vec<Place>) -> bool
    requires channel { channel < length engine.now.fifos.channels }
    requires core { IsSomeCore engine.now }
    ensures { result ≡ true → AreSeeds (held_in engine.now) channel seeds.new.items }
{
    let port = Port {
        side: Side::Push,
        channel,
    };
    let Some(owner) = engine.fifos.pusher(channel) else {
        return false;
    };
    for step in 0..engine.graph.frontier(owner) {
        let at = Place {
            module: owner,
            step,
        };
        if !keep_felt(engine, port, at, seeds) {
            return false;
        }
    }
    true
}

/// Adds a step if it has an access at the port and is not right. False where memory runs out.
fn keep_felt(engine: &Engine, port: Port, at: Place, seeds: &mut Vec<Place>) -> bool
    requires there { HasStep engine.now.graph.lanes at }
    requires timed { at.step < first_of (held_in engine.now) at.module }
    requires core { IsSomeCore engine.now }
    ensures felt { result ≡ true
        → HasAccessAt port.side port.channel (step_of (held_in engine.now) at.module at.step)
        → IsLooked (held_in engine.now) at.module at.step ⊎ Contains seeds.new.items at }
    ensures kept { (p : place) → Contains seeds.old.items p → Contains seeds.new.items p }
{
    if is_right_or_elsewhere(engine, port, at) {
        return true;
    }
    seeds.push(at).is_ok()
}
