//! The latest clock in which each step may be done so that a plan ends by a clock.
ghost use Rattle.std.specs.Prelude.{◌≡◌, true, All};
ghost use Rattle.path_check.specs.{HasStep, IsAccess, HasAccesses};

use crate::events::waiting_for;
use engine_view::Engine;
use event_graph::LaneAccesses;
use flow_design::Advance;
use flow_word::{List, OutOfMemory, Place, Words};
use std::alloc::Global;

/// Stands for the clock of a step that is not found yet.
const UNKNOWN: u64 = u64::MAX;

/// For each module, the latest clocks of its steps with a cycle, and how many of these steps, the first ones, have no clock yet. No
/// clause says what these clocks are: they guide a search, and what the search finds is checked.
pub struct Latest {
    lanes: List<Words>,
    left: Words,
}

impl Drop for Latest {
    fn drop(self) {
        let Latest {
            lanes: _lanes,
            left: _left,
        } = self;
    }
}

/// A step or the end of the plan that comes at least so many clocks after a step, and the latest clock that follows for that step.
#[derive(Clone, Copy)]
pub(crate) struct Successor {
    /// The step that comes after; `None` for the end of the plan.
    pub(crate) place: Option<Place>,
    /// The latest clock of the step that comes before.
    pub(crate) latest: u64,
}

impl Latest {
    /// The latest clocks before the search: no step has one yet. `OutOfMemory` where memory ran out.
    fn new(alloc: Global, engine: &Engine) -> Result<Latest, OutOfMemory> {
        let mut lanes = List::new(alloc);
        let mut left = List::new(alloc);
        for owner in 0..engine.graph.modules() {
            let steps = engine.graph.frontier(owner);
            lanes.push(List::zeros(alloc, steps)?)?;
            left.push(steps)?;
        }
        Ok(Latest { lanes, left })
    }

    /// How many steps of a module have no clock yet.
    fn left(&self, owner: u32) -> u64 {
        item(self.left.as_slice(), owner as u64)
    }

    /// The latest clock of a step; `UNKNOWN` where it is not found.
    pub(crate) fn at(&self, place: Place) -> u64 {
        match self.lanes.as_slice().get(place.module as usize) {
            Some(lane) if self.left(place.module) <= place.step => item(
                lane.as_slice(),
                place.step,
            ),
            Some(_) | None => UNKNOWN,
        }
    }

    /// Sets the latest clock of a step, which is the last of its module without one.
    fn set(&mut self, place: Place, clock: u64) {
        let lanes = self.lanes.as_mut_slice();
        if (place.module as usize) < lanes.len() {
            put(
                lanes[place.module as usize].as_mut_slice(),
                place.step,
                clock,
            );
        }
        put(self.left.as_mut_slice(), place.module as u64, place.step);
    }
}

/// The item with this number; `UNKNOWN` where there is none.
fn item(items: &[u64], number: u64) -> u64 {
    items.get(number as usize).copied().unwrap_or(UNKNOWN)
}

/// Sets the item with this number, where there is one.
fn put(items: &mut [u64], number: u64, item: u64) {
    if number < items.len() as u64 {
        items[number as usize] = item;
    }
}

/// The latest clock in which each step may be done so that all modules have ended by a clock. Steps whose clock is not found have
/// `UNKNOWN`.
///
/// The search goes backwards over the modules in turn, over each as far as what comes after its steps is found, and takes memory
/// for one number per step. `OutOfMemory` where memory ran out.
pub fn find_latest(alloc: Global, engine: &Engine, clock: u64) -> Result<Latest, OutOfMemory>
    requires { HasAccesses engine.now.graph.lanes engine.now.fifos.channels }
{
    let mut latest = Latest::new(alloc, engine)?;
    for _ in 0..u64::MAX {
        if !go_back(engine, clock, &mut latest) {
            break;
        }
    }
    Ok(latest)
}

/// One round over the modules, from the last to the first. Returns whether it found a clock.
fn go_back(engine: &Engine, clock: u64, latest: &mut Latest) -> bool
    requires { HasAccesses engine.now.graph.lanes engine.now.fifos.channels }
{
    let mut found = false;
    let modules = engine.graph.modules();
    for after in 0..modules {
        let owner = modules - 1 - after;
        if find_lane(engine, clock, owner, latest) {
            found = true;
        }
    }
    found
}

/// Finds the latest clocks of a module's last steps without one, as far as what comes after them is found. Returns whether it found
/// one.
fn find_lane(engine: &Engine, clock: u64, owner: u32, latest: &mut Latest) -> bool
    requires { HasAccesses engine.now.graph.lanes engine.now.fifos.channels }
{
    let all = latest.left(owner);
    for after in 0..all {
        let place = Place {
            module: owner,
            step: all - after - 1,
        };
        match latest_of(engine, clock, latest, place) {
            Some(successor) => latest.set(place, successor.latest),
            None => return 0 < after,
        }
    }
    0 < all
}

/// What decides the latest clock of a step: of all that comes after the step, what allows it the least clock. `None` where the
/// clock of one of these is not found yet.
pub(crate) fn latest_of(
    engine: &Engine,
    clock: u64,
    latest: &Latest,
    place: Place,
) -> Option<Successor>
    requires accesses { HasAccesses engine.now.graph.lanes engine.now.fifos.channels }
{
    if !has_step(engine, place) {
        return None;
    }
    let next = after_step(engine, clock, latest, place)?;
    let step = engine.graph.look(place);
    let waiting = first_waiting(engine, latest, &step.accesses)?;
    if waiting.latest < next.latest {
        return Some(waiting);
    }
    Some(next)
}

/// Whether a place names a step.
fn has_step(engine: &Engine, place: Place) -> bool
    ensures { result ≡ true → HasStep engine.now.graph.lanes place }
{
    place.module < engine.graph.modules() && place.step < engine.graph.len(place.module)
}

/// What comes after a step in its own module, the next step or the end, and the latest clock that follows. `None` where the clock
/// of the next step is not found yet.
fn after_step(engine: &Engine, clock: u64, latest: &Latest, place: Place) -> Option<Successor>
    requires { HasStep engine.now.graph.lanes place }
{
    if 1 < engine.graph.len(place.module).saturating_sub(place.step) {
        let next = Place {
            module: place.module,
            step: place.step + 1,
        };
        let gap = engine.graph.look(next).gap;
        return found_at(latest, next, gap);
    }
    let gap = match engine.ends.get(place.module as usize) {
        Some(Some(Advance::Ended(gap))) => *gap,
        Some(_) | None => 0,
    };
    Some(Successor {
        place: None,
        latest: clock.saturating_sub(gap),
    })
}

/// A step as a successor: the step before it must be done this many clocks before its latest clock. `None` where that clock is not
/// found.
fn found_at(latest: &Latest, place: Place, clocks: u64) -> Option<Successor> {
    let found = latest.at(place);
    if found == UNKNOWN {
        return None;
    }
    Some(Successor {
        place: Some(place),
        latest: found.saturating_sub(clocks),
    })
}

/// Of the steps that wait for these accesses, the one that allows the least clock. `None` where the clock of one of them is not
/// found yet.
fn first_waiting(engine: &Engine, latest: &Latest, accesses: &LaneAccesses<'_>) -> Option<Successor>
    requires { All (IsAccess engine.now.fifos.channels) accesses.now }
{
    let mut least = Successor {
        place: None,
        latest: UNKNOWN,
    };
    for access in accesses.iter() {
        if let Some(waiting) = waiting_for(engine, &access) {
            let found = found_at(latest, waiting.place, waiting.clocks)?;
            if found.latest < least.latest {
                least = found;
            }
        }
    }
    Some(least)
}
