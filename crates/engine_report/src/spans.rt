//! The spans of a module.
ghost use Rattle.std.specs.Prelude.{ℕ, ◌≡◌, ◌<◌, ◌≤◌, ◌+◌, min, max, length, All, IfOk, OnOk};
ghost use Rattle.engine_report.specs.{IsAccess, HasAccesses, HasPlaces, when_possible, Plan, clock_of, verdict, HasStep, cycle_bound};
ghost use Rattle.engine_report.specs.{gap_bound, HoldsEnd, end_at, gap_of_end, known_until, lane_step, StandsBetween, HasWaited, HasPassed};
ghost use Rattle.engine_report.specs.{AreSpans, reached, Comes, Does};
ghost use Rattle.timelines.specs.declared.span.Doing.TheVariants.{Moves};

use engine_view::Engine;
use event_graph::{LaneAccesses, Place};
use flow_design::Advance;
use flow_word::{Access, List, OutOfMemory, Port};
use std::alloc::Global;
use time_engine::{Known, known_of};
use timelines::{Doing, Span, extend};

/// The spans of a module, read off what an engine holds at the end of a plan's simulation: the steps of all modules with their
/// cycles, the pushes and pops, and the end mark of each module whose own run has come to its end. With the clock of the plan's
/// verdict, they are the spans of the lockstep machine below that clock.
///
/// It looks once at each step of the module, and once at each of its accesses. It takes memory for the spans. `OutOfMemory` where
/// memory ran out.
pub fn spans_of(
    alloc: Global,
    engine: &Engine,
    owner: u32,
    clock: u64,
) -> Result<List<Span>, OutOfMemory>
    requires owner { owner < length engine.now.graph.lanes }
    requires accesses { HasAccesses engine.now.graph.lanes engine.now.fifos.channels }
    requires places { HasPlaces engine.now.graph.lanes engine.now.fifos.channels }
    requires ends { owner < length engine.now.ends.items }
    requires short { gap_of_end (end_at engine.now.ends.items owner) < gap_bound }
    ensures { IfOk result (λ spans. (p : Plan)
        → HoldsEnd p engine.now → clock ≡ clock_of (verdict p)
        → AreSpans p owner spans) }
{
    let mut spans = List::new(alloc);
    let mut last = 0u64;
    let timed = engine.graph.frontier(owner);
    for step in 0..timed {
        let place = Place {
            module: owner,
            step,
        };
        let cycle = engine.graph.cycle_of(place).unwrap_or(0);
        stand(&mut spans, engine, place, last, cycle.min(clock))?;
        extend(&mut spans, (cycle + 1).min(clock), Doing::Moves)?;
        last = cycle;
    }
    if timed == engine.graph.len(owner) {
        let end = last + gap_of(&engine.ends[owner as usize]);
        extend(&mut spans, end.min(clock), Doing::Moves)?;
    } else {
        let place = Place {
            module: owner,
            step: timed,
        };
        stand(&mut spans, engine, place, last, clock)?;
    }
    Ok(spans)
}

/// Adds what a module does up to clock `until`: it moves on from its step before, in clock `last`, until it comes to this step, and
/// then stalls for the causes at this step.
fn stand(
    spans: &mut List<Span>,
    engine: &Engine,
    place: Place,
    last: u64,
    until: u64,
) -> Result<(), OutOfMemory>
    requires step { HasStep engine.now.graph.lanes place }
    requires last { last < cycle_bound }
    requires accesses { HasAccesses engine.now.graph.lanes engine.now.fifos.channels }
    requires places { HasPlaces engine.now.graph.lanes engine.now.fifos.channels }
    ensures spans { OnOk result ((p : Plan) (i : ℕ) → Comes p i spans.old
        → Does p i (reached spans.old) (min (last + (lane_step engine.now.graph.lanes place).gap) until) Moves
        → StandsBetween p i engine.now.graph.lanes engine.now.fifos.channels (lane_step engine.now.graph.lanes place).accesses
        (max (reached spans.old) (min (last + (lane_step engine.now.graph.lanes place).gap) until)) until
        → Comes p i spans.new) }
    ensures reached { OnOk result (reached spans.new ≡ max (reached spans.old) until) }
{
    let step = engine.graph.look(place);
    let arrival = (last + step.gap).min(until);
    stand_from(spans, engine, &step.accesses, arrival, until)
}

/// Adds what a module does up to clock `until`: it moves until it comes to a step in clock `arrival`, and then stalls for the
/// causes at that step.
fn stand_from(
    spans: &mut List<Span>,
    engine: &Engine,
    accesses: &LaneAccesses<'_>,
    arrival: u64,
    until: u64,
) -> Result<(), OutOfMemory>
    requires inside { All (IsAccess engine.now.fifos.channels) accesses.now }
    requires places { HasPlaces engine.now.graph.lanes engine.now.fifos.channels }
    requires arrival { arrival ≤ until }
    ensures spans { OnOk result ((p : Plan) (i : ℕ) → Comes p i spans.old → Does p i (reached spans.old) arrival Moves
        → StandsBetween p i engine.now.graph.lanes engine.now.fifos.channels accesses.now (max (reached spans.old) arrival) until
        → Comes p i spans.new) }
    ensures reached { OnOk result (reached spans.new ≡ max (reached spans.old) until) }
{
    extend(spans, arrival, Doing::Moves)?;
    wait(spans, engine, accesses, until)?;
    extend(spans, until, Doing::Moves)
}

/// Adds the clocks in which a module stalls at a step, by one access after the other as the cause, up to clock `until`.
fn wait(
    spans: &mut List<Span>,
    engine: &Engine,
    accesses: &LaneAccesses<'_>,
    until: u64,
) -> Result<(), OutOfMemory>
    requires inside { All (IsAccess engine.now.fifos.channels) accesses.now }
    requires places { HasPlaces engine.now.graph.lanes engine.now.fifos.channels }
    ensures { OnOk result (HasWaited engine.now.graph.lanes engine.now.fifos.channels accesses.now until (length accesses.now)
        spans.old spans.new) }
{
    for access in accesses.iter() {
        wait_for(spans, engine, &access, until)?;
    }
    Ok(())
}

/// Adds the clocks in which this access is the cause of a stall, up to clock `until`. No access before it is a cause any more.
fn wait_for(
    spans: &mut List<Span>,
    engine: &Engine,
    access: &Access,
    until: u64,
) -> Result<(), OutOfMemory>
    requires access { IsAccess engine.now.fifos.channels access.now }
    requires places { HasPlaces engine.now.graph.lanes engine.now.fifos.channels }
    ensures { OnOk result (HasPassed engine.now.graph.lanes engine.now.fifos.channels access.now until spans.old spans.new) }
{
    if !access.kind.is_blocking() {
        return Ok(());
    }
    let port = Port {
        side: access.kind.side(),
        channel: access.channel,
    };
    let from = possible_from(engine, access, until);
    extend(spans, from, Doing::Still(port))
}

/// The clock from which on an access is possible, or `until` where that is earlier.
fn possible_from(engine: &Engine, access: &Access, until: u64) -> u64
    requires access { IsAccess engine.now.fifos.channels access.now }
    requires places { HasPlaces engine.now.graph.lanes engine.now.fifos.channels }
    ensures { result ≡ known_until (when_possible engine.now.graph.lanes engine.now.fifos.channels access.now) until }
{
    match known_of(&engine.graph, &engine.fifos, access) {
        Known::From(clock) => clock.min(until),
        Known::Never | Known::Unknown => until,
    }
}

/// The local clocks from a module's last step to its end, or 0 where it has no end mark.
fn gap_of(end: &Option<Advance>) -> u64
    ensures { result ≡ gap_of_end end.now }
{
    match end {
        Some(Advance::Ended(gap)) | Some(Advance::Spent(gap)) => *gap,
        Some(Advance::Step(_)) | None => 0,
    }
}
