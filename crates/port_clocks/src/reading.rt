//! The cycles of the steps that use a port.
ghost use Rattle.std.specs.Prelude.{◌≡◌, ◌<◌, ◌==◌, false, length, option_map, unwrap_or, IfOk};
ghost use Rattle.port_clocks.specs.{channel_at, first_module, places_of, HasPlaces, cycle_in, AreCycles};

use engine_view::Engine;
use flow_word::{List, OutOfMemory, Port, Side, Words};
use std::alloc::Global;

/// Whether the first step that uses a port is one of this module.
pub(crate) fn uses(engine: &Engine, owner: u32, port: Port) -> bool
    requires { port.channel < length engine.now.fifos.channels }
    ensures { result
        ≡ unwrap_or (option_map (λ m. m == owner) (first_module (places_of port.side (channel_at engine.now.fifos.channels port.channel))))
        false }
{
    let first = match port.side {
        Side::Pop => engine.fifos.popper(port.channel),
        Side::Push => engine.fifos.pusher(port.channel),
    };
    match first {
        Some(module) => module == owner,
        None => false,
    }
}

/// The cycles of the steps that use a port, in order, up to the first one that has none.
pub(crate) fn cycles_at(alloc: Global, engine: &Engine, port: Port) -> Result<Words, OutOfMemory>
    requires channel { port.channel < length engine.now.fifos.channels }
    requires places { HasPlaces engine.now.graph.lanes engine.now.fifos.channels }
    ensures { IfOk result (AreCycles engine.now.graph.lanes
        (places_of port.side (channel_at engine.now.fifos.channels port.channel))) }
{
    let mut cycles = List::new(alloc);
    for number in 0..count(engine, port) {
        let Some(cycle) = cycle_at(engine, port, number) else {
            break;
        };
        cycles.push(cycle)?;
    }
    Ok(cycles)
}

/// How many steps use a port, also without a cycle. A step counts once for each element that it moves there.
fn count(engine: &Engine, port: Port) -> u64
    requires { port.channel < length engine.now.fifos.channels }
    ensures { result ≡ length (places_of port.side (channel_at engine.now.fifos.channels port.channel)) }
{
    match port.side {
        Side::Pop => engine.fifos.pops(port.channel),
        Side::Push => engine.fifos.pushes(port.channel),
    }
}

/// The cycle of the step that uses a port after `before` earlier uses. `None` where there is no such step, or it has no cycle.
pub(crate) fn cycle_at(engine: &Engine, port: Port, before: u64) -> Option<u64>
    requires channel { port.channel < length engine.now.fifos.channels }
    requires places { HasPlaces engine.now.graph.lanes engine.now.fifos.channels }
    ensures { result
        ≡ cycle_in engine.now.graph.lanes (places_of port.side (channel_at engine.now.fifos.channels port.channel)) before }
{
    match engine.fifos.place(port.channel, port.side, before) {
        Some(place) => engine.graph.cycle_of(place),
        None => None,
    }
}
