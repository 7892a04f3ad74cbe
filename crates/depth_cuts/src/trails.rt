//! Paths of steps that wait for one another with other depths.
ghost use Rattle.depth_cuts.specs.{HasAccesses};

use crate::clocks::{StepClocks, find_clocks, item, put};
use crate::waits::{Event, Start, cause_of, start_of};
use engine_view::Engine;
use flow_design::Advance;
use flow_design::limits::FIFO_DEPTH;
use flow_word::{List, OutOfMemory, Place, Words};
use path_check::is_timed;
use std::alloc::Global;

/// A path of steps, and depths with which each of them waits for the one before it. No clause says so: both are checked.
pub(crate) struct Trail {
    pub(crate) path: List<Place>,
    pub(crate) depths: Words,
}

impl Drop for Trail {
    fn drop(self) {
        let Trail {
            path: _path,
            depths: _depths,
        } = self;
    }
}

impl Trail {
    /// An empty path, with FIFOs as deep as the language allows; a channel without a depth keeps 0. `OutOfMemory` where memory ran
    /// out.
    fn new(alloc: Global, depths: &[u64]) -> Result<Trail, OutOfMemory> {
        let mut deepest = List::new(alloc);
        for depth in depths {
            deepest.push(if *depth == 0 { 0 } else { FIFO_DEPTH })?;
        }
        Ok(Trail {
            path: List::new(alloc),
            depths: deepest,
        })
    }

    /// Notes that the path waits for a place in a FIFO, if `full` names one: the trail then has this FIFO's depth of `depths`.
    fn cross(&mut self, depths: &[u64], full: Option<u32>) {
        if let Some(channel) = full {
            put(
                self.depths.as_mut_slice(),
                channel as u64,
                item(depths, channel as u64),
            );
        }
    }
}

/// A path meant to show that the plan ends after a clock with these depths, or never. FIFOs in which the path does not wait for a
/// place are as deep as the language allows. `None` where the plan seems to end in time.
///
/// It takes memory for two numbers of each step, and for the path. `OutOfMemory` where memory ran out.
pub(crate) fn find_trail(
    alloc: Global,
    engine: &Engine,
    depths: &[u64],
    clock: u64,
) -> Result<Option<Trail>, OutOfMemory>
    requires { HasAccesses engine.now.graph.lanes engine.now.fifos.channels }
{
    let clocks = find_clocks(alloc, engine, depths)?;
    match first_held(engine, &clocks) {
        Some(owner) => match held_round(engine, depths, &clocks, owner) {
            Some(first) => find_round(alloc, engine, depths, &clocks, first),
            None => Ok(None),
        },
        None => match last_end(engine, &clocks) {
            Some(last) if clock <= last.clock => {
                let trail = find_way(alloc, engine, depths, &clocks, last.place)?;
                Ok(Some(trail))
            }
            Some(_) | None => Ok(None),
        },
    }
}

/// The first module with a step that has no clock. `None` where each step has one.
fn first_held(engine: &Engine, clocks: &StepClocks) -> Option<u32> {
    for owner in 0..engine.graph.modules() {
        if clocks.found(owner) < engine.graph.frontier(owner) {
            return Some(owner);
        }
    }
    None
}

/// The last step of a module, and the last clock in which the module moves.
#[derive(Clone, Copy)]
struct End {
    place: Place,
    clock: u64,
}

/// Of the module that moves longest, the last step and the last clock in which it moves. `None` where no module has a step. Each
/// step has its clock.
fn last_end(engine: &Engine, clocks: &StepClocks) -> Option<End> {
    let mut last: Option<End> = None;
    for owner in 0..engine.graph.modules() {
        if let Some(step) = engine.graph.frontier(owner).checked_sub(1) {
            let place = Place {
                module: owner,
                step,
            };
            let clock = clocks.at(place).saturating_add(clocks_after(engine, owner));
            if last.is_none_or(|last| last.clock < clock) {
                last = Some(End { place, clock });
            }
        }
    }
    last
}

/// How many clocks after its last step a module still moves.
fn clocks_after(engine: &Engine, owner: u32) -> u64 {
    match engine.ends.get(owner as usize) {
        Some(Some(Advance::Ended(gap))) | Some(Some(Advance::Spent(gap))) => gap.saturating_sub(1),
        Some(_) | None => 0,
    }
}

/// The path to a step, from the last step before it that is done no later than in the run that the engine holds. `OutOfMemory`
/// where memory ran out.
fn find_way(
    alloc: Global,
    engine: &Engine,
    depths: &[u64],
    clocks: &StepClocks,
    last: Place,
) -> Result<Trail, OutOfMemory>
    requires { HasAccesses engine.now.graph.lanes engine.now.fifos.channels }
{
    let mut trail = Trail::new(alloc, depths)?;
    let mut at = last;
    for _ in 0..u64::MAX {
        trail.path.push(at)?;
        if !is_later(engine, clocks, at) {
            break;
        }
        let Some(cause) = cause_of(engine, depths, clocks, at) else {
            break;
        };
        trail.cross(depths, cause.full);
        at = cause.place;
    }
    trail.path.as_mut_slice().reverse();
    Ok(trail)
}

/// Whether a step is done later than in the run that the engine holds.
fn is_later(engine: &Engine, clocks: &StepClocks, place: Place) -> bool {
    is_timed(engine, place) && engine.graph.cycle_of(place).unwrap_or(0) < clocks.at(place)
}

/// The pop or push that a module's next step without a clock waits for. `None` where it waits for none.
fn held_by(engine: &Engine, depths: &[u64], clocks: &StepClocks, owner: u32) -> Option<Event>
    requires { HasAccesses engine.now.graph.lanes engine.now.fifos.channels }
{
    match start_of(engine, depths, clocks, next_place(clocks, owner)) {
        Start::After(event) => Some(event),
        Start::At(_) | Start::Never => None,
    }
}

/// The place of a module's first step without a clock.
fn next_place(clocks: &StepClocks, owner: u32) -> Place {
    Place {
        module: owner,
        step: clocks.found(owner),
    }
}

/// A module of a cycle of modules that wait for one another, found from a module that waits for such a cycle. `None` where a module
/// on the way does not wait.
fn held_round(engine: &Engine, depths: &[u64], clocks: &StepClocks, owner: u32) -> Option<u32>
    requires { HasAccesses engine.now.graph.lanes engine.now.fifos.channels }
{
    let mut at = owner;
    for _ in 0..engine.graph.modules() {
        at = held_by(engine, depths, clocks, at)?.place.module;
    }
    Some(at)
}

/// The steps of a cycle of waits, from the next step of a module back to it. `None` where they do not lead back; `OutOfMemory`
/// where memory ran out.
fn find_round(
    alloc: Global,
    engine: &Engine,
    depths: &[u64],
    clocks: &StepClocks,
    first: u32,
) -> Result<Option<Trail>, OutOfMemory>
    requires { HasAccesses engine.now.graph.lanes engine.now.fifos.channels }
{
    let mut trail = Trail::new(alloc, depths)?;
    let mut at = first;
    trail.path.push(next_place(clocks, first))?;
    for _ in 0..u64::MAX {
        let Some(event) = held_by(engine, depths, clocks, at) else {
            return Ok(None);
        };
        trail.cross(depths, event.full());
        at = event.place.module;
        trail.path.push(next_place(clocks, at))?;
        if at == first {
            break;
        }
    }
    trail.path.as_mut_slice().reverse();
    Ok(Some(trail))
}
