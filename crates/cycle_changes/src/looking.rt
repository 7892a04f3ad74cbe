//! Looks at steps.
ghost use Rattle.std.specs.Prelude.{◌≡◌, ◌↔◌, ◌<◌, [], true, length, slice_index_or};
ghost use Rattle.cycle_changes.specs.{HasStep, lane_at, cycle_bound, HasAccesses, HasPlaces, held_parts, step_of, flags_of, found_flags};
ghost use Rattle.cycle_changes.specs.{held_in, IsSomeCore, IsLooked, looked, previous_cycle as before};

use engine_view::{Engine, compare_outcomes};
use event_graph::{Graph, Place};
use fifo_table::FifoTable;
use outcome_guard::Guard;
use time_engine::latest;

/// Whether a step with a cycle is right: its cycle is the one that its neighbours determine, and in it each query has its recorded
/// outcome. It takes no memory.
pub fn look(engine: &Engine, at: Place) -> bool
    requires there { HasStep engine.now.graph.lanes at }
    requires timed { at.step < length (lane_at engine.now.graph.lanes at.module).cycles }
    requires core { IsSomeCore engine.now }
    ensures { (result ≡ true) ↔ IsLooked (held_in engine.now) at.module at.step }
{
    let Some(cycle) = due_cycle(&engine.graph, &engine.fifos, at) else {
        return false;
    };
    if !has_cycle(&engine.graph, at, cycle) {
        return false;
    }
    has_outcomes(engine, at, cycle)
}

/// Whether a step has the given cycle.
fn has_cycle(graph: &Graph, at: Place, cycle: u64) -> bool
    requires there { HasStep graph.now.lanes at }
    requires timed { at.step < length (lane_at graph.now.lanes at.module).cycles }
    ensures { (result ≡ true) ↔ (slice_index_or (lane_at graph.now.lanes at.module).cycles at.step 0 ≡ cycle) }
{
    match graph.cycle_of(at) {
        Some(held) => held == cycle,
        None => false,
    }
}

/// Whether each query of a step has its recorded outcome in this clock.
fn has_outcomes(engine: &Engine, at: Place, cycle: u64) -> bool
    requires there { HasStep engine.now.graph.lanes at }
    requires core { IsSomeCore engine.now }
    ensures { (result ≡ true) ↔ (found_flags engine.now.graph.lanes engine.now.fifos.channels cycle
        (step_of (held_in engine.now) at.module at.step).accesses
        ≡ flags_of (held_in engine.now) at.module at.step) }
{
    let step = engine.graph.look(at);
    let found = compare_outcomes(
        &engine.graph,
        &engine.fifos,
        &engine.log,
        at.module,
        cycle,
        &step,
    );
    matches!(found, Guard::Same)
}

/// The cycle that a step must have, by the cycle of the step before it and those of the steps that enable its accesses. `None`
/// where a blocking access waits for a step without a cycle. It takes no memory.
fn due_cycle(graph: &Graph, fifos: &FifoTable, at: Place) -> Option<u64>
    requires there { HasStep graph.now.lanes at }
    requires accesses { HasAccesses graph.now.lanes fifos.now.channels }
    requires places { HasPlaces graph.now.lanes fifos.now.channels }
    ensures { result ≡ looked (held_parts graph.now.lanes fifos.now.channels [] []) at.module at.step }
{
    let step = graph.look(at);
    let arrival = cycle_before(graph, at) + step.gap;
    match latest(graph, fifos, &step.accesses, arrival) {
        Ok(cycle) => Some(cycle),
        Err(_access) => None,
    }
}

/// The cycle of the step before this one in its module, or 0 for the module's first step.
fn cycle_before(graph: &Graph, at: Place) -> u64
    requires there { HasStep graph.now.lanes at }
    ensures cycle { result ≡ before (lane_at graph.now.lanes at.module) at.step }
    ensures below { result < cycle_bound }
{
    match at.step.checked_sub(1) {
        Some(step) => graph
            .cycle_of(Place {
                module: at.module,
                step,
            })
            .unwrap_or(0),
        None => 0,
    }
}
