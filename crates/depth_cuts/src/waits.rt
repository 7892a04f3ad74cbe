//! What a step waits for with other depths.
ghost use Rattle.std.specs.Prelude.{All};
ghost use Rattle.depth_cuts.specs.{IsAccess, HasAccesses};

use crate::clocks::{StepClocks, UNKNOWN, item};
use engine_view::Engine;
use event_graph::LaneAccesses;
use flow_word::{Access, Place, Side};
use path_check::is_timed;

/// A pop or a push that an access waits for.
#[derive(Clone, Copy)]
pub(crate) struct Event {
    /// The step of the pop or push.
    pub(crate) place: Place,
    pub(crate) channel: u32,
    /// The side of the access that waits.
    pub(crate) side: Side,
    /// The access becomes possible this many clocks after the step.
    pub(crate) lag: u64,
}

/// When an access becomes possible, or when a step is done.
#[derive(Clone, Copy)]
pub(crate) enum Start {
    /// The access is possible from this clock on, or the step is done in it.
    At(u64),
    /// Only after this event, whose step has no clock.
    After(Event),
    /// Never: the event that it waits for does not occur.
    Never,
}

/// The clock in which a step is done, found from the clocks of what it waits for.
pub(crate) fn start_of(engine: &Engine, depths: &[u64], clocks: &StepClocks, place: Place) -> Start
    requires accesses { HasAccesses engine.now.graph.lanes engine.now.fifos.channels }
{
    if !is_timed(engine, place) {
        return Start::Never;
    }
    let step = engine.graph.look(place);
    let before = match before(place) {
        Some(before) => clocks.at(before),
        None => 0,
    };
    let arrival = before.saturating_add(step.gap);
    latest_of(engine, depths, clocks, &step.accesses, arrival)
}

/// The step before this one in the same module. `None` for the first step.
fn before(place: Place) -> Option<Place> {
    let step = place.step.checked_sub(1)?;
    Some(Place {
        module: place.module,
        step,
    })
}

/// The latest of a clock and of those from which these accesses are possible; or, if there is one, the first event without a clock
/// that they wait for.
fn latest_of(
    engine: &Engine,
    depths: &[u64],
    clocks: &StepClocks,
    accesses: &LaneAccesses<'_>,
    arrival: u64,
) -> Start
    requires { All (IsAccess engine.now.fifos.channels) accesses.now }
{
    let mut latest = arrival;
    for access in accesses.iter() {
        match possible_from(engine, depths, clocks, &access) {
            Start::At(clock) => latest = latest.max(clock),
            Start::After(event) => return Start::After(event),
            Start::Never => return Start::Never,
        }
    }
    Start::At(latest)
}

/// The clock from which an access is possible, or the event without a clock that it waits for.
fn possible_from(engine: &Engine, depths: &[u64], clocks: &StepClocks, access: &Access) -> Start
    requires { IsAccess engine.now.fifos.channels access.now }
{
    let Some(events) = events_before(engine, depths, access) else {
        return Start::At(0);
    };
    let Some(event) = event_at(engine, access, events) else {
        return Start::Never;
    };
    let clock = clocks.at(event.place);
    if clock == UNKNOWN {
        return Start::After(event);
    }
    Start::At(clock.saturating_add(event.lag))
}

/// The number, counted from 0, of the pop or push that an access waits for. `None` where it waits for none.
fn events_before(engine: &Engine, depths: &[u64], access: &Access) -> Option<u64>
    requires { IsAccess engine.now.fifos.channels access.now }
{
    if !access.kind.is_blocking() || !engine.fifos.is_fifo(access.channel) {
        return None;
    }
    let free = match access.kind.side() {
        Side::Push => item(depths, access.channel as u64),
        Side::Pop => 0,
    };
    access.ordinal.checked_sub(free)?.checked_sub(1)
}

/// The pop or push with this number, counted from 0, at the other side of an access's channel. `None` where the run has no such
/// one.
fn event_at(engine: &Engine, access: &Access, before: u64) -> Option<Event>
    requires { IsAccess engine.now.fifos.channels access.now }
{
    let side = access.kind.side();
    let place = engine.fifos.place(access.channel, side.other(), before)?;
    Some(Event {
        place,
        channel: access.channel,
        side,
        lag: engine.fifos.lag(access.channel, side),
    })
}

/// What decided the clock of a step.
#[derive(Clone, Copy)]
pub(crate) struct StepCause {
    /// The step that it waited for, which comes before it on the path.
    pub(crate) place: Place,
    /// The FIFO in which it waited for a place. `None` where it waited for something else.
    pub(crate) full: Option<u32>,
}

/// What decided the clock of a step: the step before it in its module, otherwise an element that it waited for, otherwise a place
/// in a FIFO.
pub(crate) fn cause_of(
    engine: &Engine,
    depths: &[u64],
    clocks: &StepClocks,
    place: Place,
) -> Option<StepCause>
    requires accesses { HasAccesses engine.now.graph.lanes engine.now.fifos.channels }
{
    if !is_timed(engine, place) {
        return None;
    }
    let step = engine.graph.look(place);
    let clock = clocks.at(place);
    if let Some(before) = before(place)
        && clocks.at(before).saturating_add(step.gap) == clock
    {
        return Some(StepCause {
            place: before,
            full: None,
        });
    }
    let accesses = &step.accesses;
    let element = cause_at(engine, depths, clocks, accesses, clock, Side::Pop);
    if element.is_some() {
        return element;
    }
    cause_at(engine, depths, clocks, accesses, clock, Side::Push)
}

/// What the first of these accesses at a side of its channel waited for, of those that became possible in just this clock. `None`
/// where none did.
fn cause_at(
    engine: &Engine,
    depths: &[u64],
    clocks: &StepClocks,
    accesses: &LaneAccesses<'_>,
    clock: u64,
    side: Side,
) -> Option<StepCause>
    requires { All (IsAccess engine.now.fifos.channels) accesses.now }
{
    for access in accesses.iter() {
        if access.kind.side() == side
            && let Some(before) = events_before(engine, depths, &access)
            && let Some(event) = event_at(engine, &access, before)
            && clocks.at(event.place).saturating_add(event.lag) == clock
        {
            return Some(StepCause {
                place: event.place,
                full: event.full(),
            });
        }
    }
    None
}

impl Event {
    /// The FIFO in which the access waits for a place. `None` where it waits for an element.
    pub(crate) fn full(self) -> Option<u32> {
        match self.side {
            Side::Push => Some(self.channel),
            Side::Pop => None,
        }
    }
}
