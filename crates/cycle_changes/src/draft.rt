//! The cycles of all steps, as a search changes them.
ghost use Rattle.std.specs.Prelude.{◌≡◌, ◌<◌};
ghost use Rattle.cycle_changes.specs.{drafted};

use event_graph::{Graph, Place};
use flow_word::OutOfMemory;
use std::alloc::Global;

/// A list of cycles for each module. Unless it is fresh, it says nothing about a graph.
#[derive(Drop)]
pub struct Draft {
    alloc: Global,
    lanes: Vec<Vec<u64>>,
    fresh: bool,
}

impl Draft {
    /// A draft without a lane.
    pub fn new(alloc: Global) -> Draft {
        Draft {
            alloc,
            lanes: Vec::new(alloc),
            fresh: false,
        }
    }

    /// The draft's cycle of the step at a place. `None` where it has none.
    pub fn cycle(&self, place: Place) -> Option<u64>
        ensures { result ≡ drafted self.now place }
    {
        let lane = self.lanes.get(place.module as usize)?;
        lane.get(place.step as usize).copied()
    }

    /// The draft's cycle of the step before the one at a place, or 0 for a module's first step. `None` where the draft has none.
    pub fn cycle_before(&self, place: Place) -> Option<u64> {
        match place.step.checked_sub(1) {
            Some(step) => self.cycle(Place {
                module: place.module,
                step,
            }),
            None => Some(0),
        }
    }

    /// Gives the step at a place another cycle, if the draft has one for it.
    pub fn set(&mut self, place: Place, cycle: u64) {
        if let Some(lane) = self.lanes.get_mut(place.module as usize)
            && let Some(there) = lane.get_mut(place.step as usize)
        {
            *there = cycle;
        }
    }

    /// Copies the graph's cycles, unless the draft is fresh and has as many. `OutOfMemory` where memory ran out.
    pub fn refresh(&mut self, graph: &Graph) -> Result<(), OutOfMemory> {
        if self.fresh && self.fits(graph) {
            return Ok(());
        }
        self.lanes.clear();
        for owner in 0..graph.modules() {
            let mut lane = Vec::new(self.alloc);
            lane.extend_from_slice(graph.cycles(owner))?;
            self.lanes.push(lane)?;
        }
        self.fresh = true;
        Ok(())
    }

    /// Tells the draft that the graph got other cycles: it is no longer fresh.
    pub fn leave(&mut self) {
        self.fresh = false;
    }

    /// Whether the draft has as many cycles for each module as the graph.
    fn fits(&self, graph: &Graph) -> bool {
        if self.lanes.len() != graph.modules() as usize {
            return false;
        }
        for (owner, lane) in self.lanes.iter().enumerate() {
            if lane.len() as u64 != graph.frontier(owner as u32) {
                return false;
            }
        }
        true
    }
}
