//! The modules that are held at the end.
ghost use Rattle.std.specs.Prelude.{◌≡◌, ◌<◌, length, filter_map, find, option_map, All, IfOk};
ghost use Rattle.engine_report.specs.{IsAccess, HasAccesses, HasPlaces, is_waiting, owners, held_by_access, held_at_open_step, all_held};

use engine_view::Engine;
use event_graph::{Access, LaneAccesses, Place};
use flow_design::{Held, Verdict};
use flow_word::{List, OutOfMemory, Side};
use std::alloc::Global;
use time_engine::{Known, known_of};

/// The held modules of a report with this verdict, in order. There are none where all modules are ended or the cycle limit was reached.
/// `OutOfMemory` where memory ran out.
pub fn held_with(
    alloc: Global,
    engine: &Engine,
    verdict: Verdict,
) -> Result<List<Held>, OutOfMemory>
    requires accesses { HasAccesses engine.now.graph.lanes engine.now.fifos.channels }
    requires places { HasPlaces engine.now.graph.lanes engine.now.fifos.channels }
    ensures { IfOk result (λ held. held ≡ all_held engine.now.graph.lanes engine.now.fifos.channels verdict) }
{
    match verdict {
        Verdict::Done(_) | Verdict::Cycles(_) => Ok(List::new(alloc)),
        Verdict::Deadlock(_) | Verdict::Ops(_) => {
            let held = hold_all(alloc, engine)?;
            Ok(held)
        }
    }
}

/// The modules that are held, each with the access that waits.
fn hold_all(alloc: Global, engine: &Engine) -> Result<List<Held>, OutOfMemory>
    requires accesses { HasAccesses engine.now.graph.lanes engine.now.fifos.channels }
    requires places { HasPlaces engine.now.graph.lanes engine.now.fifos.channels }
    ensures { IfOk result (λ held. held
        ≡ filter_map (held_at_open_step engine.now.graph.lanes engine.now.fifos.channels) (owners engine.now.graph.lanes)) }
{
    let mut all = List::with_room(alloc, engine.graph.modules() as u64)?;
    for owner in 0..engine.graph.modules() {
        if let Some(held) = held_by(engine, owner) {
            all.push(held)?;
        }
    }
    Ok(all)
}

/// A module as it is held. `None` where it is not held.
fn held_by(engine: &Engine, owner: u32) -> Option<Held>
    requires owner { owner < length engine.now.graph.lanes }
    requires accesses { HasAccesses engine.now.graph.lanes engine.now.fifos.channels }
    requires places { HasPlaces engine.now.graph.lanes engine.now.fifos.channels }
    ensures { result ≡ held_at_open_step engine.now.graph.lanes engine.now.fifos.channels owner }
{
    let first = engine.graph.frontier(owner);
    if first == engine.graph.len(owner) {
        return None;
    }
    let step = engine.graph.look(Place {
        module: owner,
        step: first,
    });
    first_waiting(engine, owner, &step.accesses)
}

/// A module as it is held by the first of these accesses that waits. `None` where none waits.
fn first_waiting(engine: &Engine, owner: u32, accesses: &LaneAccesses<'_>) -> Option<Held>
    requires inside { All (IsAccess engine.now.fifos.channels) accesses.now }
    requires places { HasPlaces engine.now.graph.lanes engine.now.fifos.channels }
    ensures { result ≡ option_map (held_by_access owner) (find (is_waiting engine.now.graph.lanes engine.now.fifos.channels) accesses.now) }
{
    for access in accesses.iter() {
        if is_waiting(engine, &access) {
            return Some(held_at(owner, &access));
        }
    }
    None
}

/// Whether an access waits: it blocks, and it is not known from which clock on it is possible.
fn is_waiting(engine: &Engine, access: &Access) -> bool
    requires access { IsAccess engine.now.fifos.channels access.now }
    requires places { HasPlaces engine.now.graph.lanes engine.now.fifos.channels }
    ensures { result ≡ is_waiting engine.now.graph.lanes engine.now.fifos.channels access.now }
{
    if !access.kind.is_blocking() {
        return false;
    }
    match known_of(&engine.graph, &engine.fifos, access) {
        Known::From(_) => false,
        Known::Never | Known::Unknown => true,
    }
}

/// A module as it is held by an access.
fn held_at(owner: u32, access: &Access) -> Held
    ensures { result ≡ held_by_access owner access.now }
{
    let full = match access.kind.side() {
        Side::Pop => false,
        Side::Push => true,
    };
    Held {
        module: owner,
        full,
        channel: access.channel,
    }
}
