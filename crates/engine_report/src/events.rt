//! The events, in order.
ghost use Rattle.std.specs.Prelude.{◌≡◌, ◌<◌, ◌+◌, ◌-◌, ◌^◌, ◌++◌, length, min, fold, All, IfOk, OnOk};
ghost use Rattle.engine_report.specs.{HasStep, numbered_step, event_line, events_at, AreEvents, key_of, keys_of, step_place, place_at};
ghost use Rattle.engine_report.specs.{HasKey, AreSortedKeys};

use event_graph::{Access, Graph, Place};
use flow_design::EventLine;
use flow_word::{List, OutOfMemory};
use std::alloc::Global;

/// A step with its cycle. Such steps are in order of cycles, and within one cycle in order of modules.
#[derive(Clone, Copy, Debug, PartialEq, Eq, PartialOrd, Ord)]
pub struct TimedStep {
    /// The clock in which the step is done.
    pub cycle: u64,
    pub module: u32,
    /// The number of the step among those of its module, counted from 0.
    pub step: u64,
}

/// The events of all steps with a cycle, in order of cycles, and within one cycle in order of modules. `OutOfMemory` where memory ran
/// out.
pub fn events(alloc: Global, graph: &Graph) -> Result<List<EventLine>, OutOfMemory>
    ensures { IfOk result (AreEvents graph.now.lanes) }
{
    let keys = sorted_steps(alloc, graph)?;
    let mut events = List::with_room(alloc, count_accesses(graph, keys.as_slice()))?;
    for key in keys.as_slice() {
        add_events(graph, key, &mut events)?;
    }
    Ok(events)
}

/// How many accesses these steps have, or the greatest number of 64 bits if they are more: the room for their events.
fn count_accesses(graph: &Graph, keys: &[TimedStep]) -> u64
    requires { All (HasKey graph.now.lanes) keys.now }
    ensures { result
        ≡ fold (λ count key. min (count + length (numbered_step graph.now.lanes (step_place key)).accesses) (2 ^ 64 - 1)) 0 keys.now }
{
    let mut count = 0u64;
    for key in keys {
        let step = graph.look(Place {
            module: key.module,
            step: key.step,
        });
        count = count.saturating_add(step.accesses.len());
    }
    count
}

/// All steps with a cycle, in order of cycles, and within one cycle in order of modules.
///
/// It takes memory for the answer only. `OutOfMemory` where memory ran out.
#[tactic(auto, using(crate::proofs::Loops::given_more))]
pub fn sorted_steps(alloc: Global, graph: &Graph) -> Result<Vec<TimedStep>, OutOfMemory>
    ensures { IfOk result (λ keys. AreSortedKeys graph.now.lanes keys.items) }
{
    let mut keys = Vec::new(alloc);
    for owner in 0..graph.modules() {
        add_steps(graph, owner, &mut keys)?;
    }
    keys.sort_unstable();
    Ok(keys)
}

/// Adds a module's steps with a cycle.
#[tactic(auto, using(crate::proofs::Loops::added_more))]
fn add_steps(graph: &Graph, owner: u32, keys: &mut Vec<TimedStep>) -> Result<(), OutOfMemory>
    requires { owner < length graph.now.lanes }
    ensures { OnOk result (keys.new.items ≡ keys.old.items ++ keys_of graph.now.lanes owner) }
{
    let count = graph.frontier(owner);
    keys.reserve(count as usize)?;
    for step in 0..count {
        keys.push(timed_step(graph, owner, step))?;
    }
    Ok(())
}

/// A module's step with this number, and its cycle.
fn timed_step(graph: &Graph, owner: u32, step: u64) -> TimedStep
    requires { HasStep graph.now.lanes (place_at owner step) }
    ensures { result ≡ key_of graph.now.lanes owner step }
{
    let place = Place {
        module: owner,
        step,
    };
    TimedStep {
        module: owner,
        cycle: graph.cycle_of(place).unwrap_or(0),
        step,
    }
}

/// Adds the events of a step, one for each access.
fn add_events(
    graph: &Graph,
    key: &TimedStep,
    events: &mut List<EventLine>,
) -> Result<(), OutOfMemory>
    requires { HasKey graph.now.lanes key.now }
    ensures { OnOk result (events.new ≡ events.old ++ events_at graph.now.lanes (step_place key.now)) }
{
    let step = graph.look(Place {
        module: key.module,
        step: key.step,
    });
    for access in step.accesses.iter() {
        events.push(event_of(key, &access))?;
    }
    Ok(())
}

/// The event of an access in a step.
fn event_of(key: &TimedStep, access: &Access) -> EventLine
    ensures { result ≡ event_line key.now.module key.now.cycle access.now }
{
    EventLine {
        module: key.module,
        kind: access.kind,
        channel: access.channel,
        cycle: key.cycle,
    }
}
