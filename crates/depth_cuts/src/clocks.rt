//! The clock in which each step is done with other depths.
ghost use Rattle.depth_cuts.specs.{HasAccesses};

use crate::waits::{Start, start_of};
use engine_view::Engine;
use flow_word::{List, OutOfMemory, Place, Words};
use std::alloc::Global;

/// Stands for the clock of a step that is not found.
pub(crate) const UNKNOWN: u64 = u64::MAX;

/// For each module, the clocks of its first steps, as far as what they wait for is found. No clause says what these clocks are:
/// they guide a search, and what the search finds is checked.
pub(crate) struct StepClocks {
    /// The clocks of the steps of all modules, one module after the other.
    clocks: Words,
    /// One entry per module: how many steps the modules before it have.
    begins: Words,
    /// One entry per module: how many of its steps have their clock.
    found: Words,
}

impl Drop for StepClocks {
    fn drop(self) {
        let StepClocks {
            clocks: _clocks,
            begins: _begins,
            found: _found,
        } = self;
    }
}

impl StepClocks {
    /// The clocks before the search: no step has one yet. `OutOfMemory` where memory ran out.
    fn new(alloc: Global, engine: &Engine) -> Result<StepClocks, OutOfMemory> {
        let mut begins = List::new(alloc);
        let mut found = List::new(alloc);
        let mut steps = 0u64;
        for owner in 0..engine.graph.modules() {
            begins.push(steps)?;
            found.push(0)?;
            steps = steps.saturating_add(engine.graph.frontier(owner));
        }
        Ok(StepClocks {
            clocks: List::zeros(alloc, steps)?,
            begins,
            found,
        })
    }

    /// How many steps of a module have their clock.
    pub(crate) fn found(&self, owner: u32) -> u64 {
        item(self.found.as_slice(), owner as u64)
    }

    /// The clock of a step; `UNKNOWN` where it is not found.
    pub(crate) fn at(&self, place: Place) -> u64 {
        if self.found(place.module) <= place.step {
            return UNKNOWN;
        }
        item(self.clocks.as_slice(), self.number(place))
    }

    /// The number of a step among those of all modules.
    fn number(&self, place: Place) -> u64 {
        item(self.begins.as_slice(), place.module as u64).saturating_add(place.step)
    }

    /// Sets the clock of a step, which is the first of its module without one.
    fn set(&mut self, place: Place, clock: u64) {
        let number = self.number(place);
        put(self.clocks.as_mut_slice(), number, clock);
        put(
            self.found.as_mut_slice(),
            place.module as u64,
            place.step.saturating_add(1),
        );
    }
}

/// The item with this number; 0 where there is none.
pub(crate) fn item(items: &[u64], number: u64) -> u64 {
    items.get(number as usize).copied().unwrap_or(0)
}

/// Sets the item with this number, where there is one.
pub(crate) fn put(items: &mut [u64], number: u64, item: u64) {
    if number < items.len() as u64 {
        items[number as usize] = item;
    }
}

/// The modules that wait for a step, and the modules to look at. An entry for a module is its number plus one; 0 stands for none.
struct Waiting {
    /// One entry per step: the last module that began to wait for it.
    last: Words,
    /// One entry per module: the module that began before it to wait for the same step.
    before: Words,
    /// The modules to look at; the next one is the last of the list.
    ready: Words,
}

impl Drop for Waiting {
    fn drop(self) {
        let Waiting {
            last: _last,
            before: _before,
            ready: _ready,
        } = self;
    }
}

impl Waiting {
    /// No module waits, and all modules are to be looked at, in order. `OutOfMemory` where memory ran out.
    fn new(alloc: Global, modules: u32, steps: u64) -> Result<Waiting, OutOfMemory> {
        let mut ready = List::new(alloc);
        for after in 0..modules {
            ready.push((modules - after) as u64)?;
        }
        Ok(Waiting {
            last: List::zeros(alloc, steps)?,
            before: List::zeros(alloc, modules as u64)?,
            ready,
        })
    }

    /// Takes the next module to look at off the list. `None` where the list is empty.
    fn take(&mut self) -> Option<u64> {
        let left = self.ready.len().checked_sub(1)?;
        let owner = item(self.ready.as_slice(), left).checked_sub(1)?;
        self.ready.truncate(left);
        Some(owner)
    }

    /// Notes that a module waits for a step.
    fn wait(&mut self, step: u64, owner: u32) {
        let before = item(self.last.as_slice(), step);
        put(self.before.as_mut_slice(), owner as u64, before);
        put(self.last.as_mut_slice(), step, owner as u64 + 1);
    }

    /// Adds the modules that wait for a step to those to look at. `OutOfMemory` where memory ran out.
    fn wake(&mut self, step: u64) -> Result<(), OutOfMemory> {
        let mut owner = item(self.last.as_slice(), step);
        put(self.last.as_mut_slice(), step, 0);
        for _ in 0..u64::MAX {
            let Some(number) = owner.checked_sub(1) else {
                break;
            };
            self.ready.push(owner)?;
            owner = item(self.before.as_slice(), number);
        }
        Ok(())
    }
}

/// The clock of each step with these depths. Where modules wait for one another for good, steps without a clock have `UNKNOWN`.
///
/// It looks at each step once, and once more for each wait for a step without a clock. It takes memory for two numbers of each
/// step. `OutOfMemory` where memory ran out.
pub(crate) fn find_clocks(
    alloc: Global,
    engine: &Engine,
    depths: &[u64],
) -> Result<StepClocks, OutOfMemory>
    requires { HasAccesses engine.now.graph.lanes engine.now.fifos.channels }
{
    let mut clocks = StepClocks::new(alloc, engine)?;
    let steps = clocks.clocks.len();
    let mut waiting = Waiting::new(alloc, engine.graph.modules(), steps)?;
    for _ in 0..u64::MAX {
        match waiting.take() {
            Some(owner) if owner < engine.graph.modules() as u64 => {
                find_lane(engine, depths, &mut clocks, &mut waiting, owner as u32)?
            }
            Some(_) | None => break,
        }
    }
    Ok(clocks)
}

/// Finds the clocks of a module's next steps, as far as what they wait for is found.
fn find_lane(
    engine: &Engine,
    depths: &[u64],
    clocks: &mut StepClocks,
    waiting: &mut Waiting,
    owner: u32,
) -> Result<(), OutOfMemory>
    requires { HasAccesses engine.now.graph.lanes engine.now.fifos.channels }
{
    for step in clocks.found(owner)..u64::MAX {
        let place = Place {
            module: owner,
            step,
        };
        match start_of(engine, depths, clocks, place) {
            Start::At(clock) => {
                clocks.set(place, clock);
                waiting.wake(clocks.number(place))?;
            }
            Start::After(event) => {
                waiting.wait(clocks.number(event.place), owner);
                break;
            }
            Start::Never => break,
        }
    }
    Ok(())
}
