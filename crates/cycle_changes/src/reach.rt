//! The steps that wait for a step.
ghost use Rattle.std.specs.Prelude.{◌≡◌, ℕ, ◌<◌, ◌≤◌, true, false, length, All, Contains, Some};
ghost use Rattle.cycle_changes.specs.{side_of, other_side, HasStep, step_of, held_in, IsSomeCore, first_of, IsLooked, AreLooked};
ghost use Rattle.cycle_changes.specs.{IsAccessAt, HasAccessAt, StandsAs, WaitsForStep, WaitsAt};

use crate::looking::look;
use engine_view::Engine;
use event_graph::{Access, LaneAccesses, Place};
use flow_word::Port;

/// Whether each step with a cycle that waits for the step at this place is right.
pub fn are_waiting_right(engine: &Engine, at: Place) -> bool
    requires there { HasStep engine.now.graph.lanes at }
    requires core { IsSomeCore engine.now }
    ensures { result ≡ true → AreLooked (held_in engine.now)
        (λ step. WaitsForStep engine.now.fifos.channels step at) }
{
    let step = engine.graph.look(at);
    for access in step.accesses.iter() {
        if !are_enabled_right(engine, at, &access) {
            return false;
        }
    }
    true
}

/// Whether each step with a cycle is right that waits for the given access of this step, at the other side of its channel.
fn are_enabled_right(engine: &Engine, at: Place, access: &Access) -> bool
    requires there { HasStep engine.now.graph.lanes at }
    requires access { Contains (step_of (held_in engine.now) at.module at.step).accesses access.now }
    requires core { IsSomeCore engine.now }
    ensures { result ≡ true → AreLooked (held_in engine.now)
        (WaitsAt engine.now.fifos.channels (other_side (side_of access.now.kind)) access.now.channel at) }
{
    if !engine.fifos.is_fifo(access.channel) {
        return true;
    }
    let side = access.kind.side();
    let taker = engine.fifos.place(access.channel, side, access.ordinal - 1);
    if !is_step(taker, at) {
        return true;
    }
    let port = Port {
        side: side.other(),
        channel: access.channel,
    };
    match access
        .ordinal
        .checked_add(engine.fifos.free(port.channel, port.side))
    {
        Some(ordinal) => are_right_at(engine, port, ordinal),
        None => false,
    }
}

/// Whether there is a place, and it is this one.
fn is_step(place: Option<Place>, at: Place) -> bool
    ensures { place ≡ Some at → result ≡ true }
{
    match place {
        Some(place) => place.step == at.step,
        None => false,
    }
}

/// Whether each step with a cycle is right that has an access with this ordinal at the port. Such steps come after the one that
/// takes there with the ordinal before, and not after the one that takes with this ordinal.
fn are_right_at(engine: &Engine, port: Port, ordinal: u64) -> bool
    requires channel { port.channel < length engine.now.fifos.channels }
    requires from_one { 1 ≤ ordinal }
    requires core { IsSomeCore engine.now }
    ensures { result ≡ true → AreLooked (held_in engine.now)
        (StandsAs port.side port.channel ordinal) }
{
    let taker = engine.fifos.place(port.channel, port.side, ordinal - 1);
    if ordinal == 1 {
        return match taker {
            Some(taker) => are_right_in(engine, port, taker.module, 0, taker.step),
            None => false,
        };
    }
    match engine.fifos.place(port.channel, port.side, ordinal - 2) {
        Some(before) => {
            let last = match taker {
                Some(taker) => taker.step,
                None => engine.graph.frontier(before.module),
            };
            let first = before.step.saturating_add(1);
            are_right_in(engine, port, before.module, first, last)
        }
        None => true,
    }
}

/// Whether each of a module's steps with a cycle that has an access at the port is right, from step `first` to step `last`.
fn are_right_in(engine: &Engine, port: Port, owner: u32, first: u64, last: u64) -> bool
    requires owner { owner < length engine.now.graph.lanes }
    requires core { IsSomeCore engine.now }
    ensures { result ≡ true → (k : ℕ) → first ≤ k → k ≤ last → k < first_of (held_in engine.now) owner
        → HasAccessAt port.side port.channel (step_of (held_in engine.now) owner k)
        → IsLooked (held_in engine.now) owner k }
{
    let end = last.saturating_add(1).min(engine.graph.frontier(owner));
    for step in first..end {
        if !is_right_or_elsewhere(
            engine,
            port,
            Place {
                module: owner,
                step,
            },
        ) {
            return false;
        }
    }
    true
}

/// Whether a step with a cycle is right, or has no access at the port.
pub fn is_right_or_elsewhere(engine: &Engine, port: Port, at: Place) -> bool
    requires there { HasStep engine.now.graph.lanes at }
    requires timed { at.step < first_of (held_in engine.now) at.module }
    requires core { IsSomeCore engine.now }
    ensures { result ≡ true
        → HasAccessAt port.side port.channel (step_of (held_in engine.now) at.module at.step)
        → IsLooked (held_in engine.now) at.module at.step }
{
    if !stands_at(&engine.graph.look(at).accesses, port) {
        return true;
    }
    look(engine, at)
}

/// Whether one of these accesses is at the port.
fn stands_at(accesses: &LaneAccesses<'_>, port: Port) -> bool
    ensures { result ≡ false → All (λ a. IsAccessAt port.side port.channel a → ⊥) accesses.now }
{
    for access in accesses.iter() {
        if access.channel == port.channel && access.kind.side() == port.side {
            return true;
        }
    }
    false
}
