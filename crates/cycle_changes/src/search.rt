//! The search for the cycles that change. Nothing is proved of what it finds: a check follows.
ghost use Rattle.std.specs.Prelude.{◌<◌};
ghost use Rattle.cycle_changes.specs.{IsAccess, HasAccesses};

use crate::draft::Draft;
use crate::due::due_cycle;
use crate::timed::has_cycle;
use event_graph::{Access, Graph, Place};
use fifo_table::FifoTable;
use flow_word::OutOfMemory;
use std::alloc::Global;
use std::cmp::Reverse;
use std::collections::BinaryHeap;

/// A search: the steps whose cycles it still has to visit, and those that it has changed in the draft.
#[derive(Drop)]
pub struct Search {
    pub draft: Draft,
    /// The steps to visit, each with the clock from which on its cycle may change.
    due: BinaryHeap<Reverse<(u64, u32, u64)>>,
    /// The steps whose cycle was changed in the draft, each as its module and its number. A step may be here twice.
    pub moved: Vec<(u32, u64)>,
}

impl Search {
    /// A search that has found nothing. It takes no memory.
    pub fn new(alloc: Global) -> Search {
        Search {
            draft: Draft::new(alloc),
            due: BinaryHeap::new(alloc),
            moved: Vec::new(alloc),
        }
    }

    /// Changes cycles in the draft, from these steps on, until each step that was touched has the cycle that it must have.
    ///
    /// It visits at most `most` steps. False where that is not enough, a cycle is not below the limit, or a step waits. `OutOfMemory`
    /// where memory ran out.
    pub fn run(
        &mut self,
        graph: &Graph,
        fifos: &FifoTable,
        seeds: &[Place],
        limit: u64,
        most: u64,
    ) -> Result<bool, OutOfMemory>
        requires { HasAccesses graph.now.lanes fifos.now.channels }
    {
        self.draft.refresh(graph)?;
        self.due.clear();
        self.moved.clear();
        for place in seeds {
            self.touch(graph, fifos, *place)?;
        }
        self.settle(graph, fifos, limit, most)
    }

    /// Visits the steps that may change, the earliest first.
    fn settle(
        &mut self,
        graph: &Graph,
        fifos: &FifoTable,
        limit: u64,
        most: u64,
    ) -> Result<bool, OutOfMemory>
        requires { HasAccesses graph.now.lanes fifos.now.channels }
    {
        for _ in 0..most {
            let Some(Reverse((_clock, module, step))) = self.due.pop() else {
                return Ok(true);
            };
            if !self.visit(graph, fifos, Place { module, step }, limit)? {
                return Ok(false);
            }
        }
        Ok(self.due.is_empty())
    }

    /// Gives a step the cycle that it must have in the draft, and touches the steps that depend on it.
    fn visit(
        &mut self,
        graph: &Graph,
        fifos: &FifoTable,
        place: Place,
        limit: u64,
    ) -> Result<bool, OutOfMemory>
        requires { HasAccesses graph.now.lanes fifos.now.channels }
    {
        let Some(cycle) = due_cycle(&self.draft, graph, fifos, place) else {
            return Ok(false);
        };
        if cycle >= limit {
            return Ok(false);
        }
        if self.draft.cycle(place) != Some(cycle) {
            self.draft.set(place, cycle);
            self.moved.push((place.module, place.step))?;
            self.touch_next(graph, fifos, place)?;
            self.touch_enabled(graph, fifos, place)?;
        }
        Ok(true)
    }

    /// Touches the next step of the same module.
    fn touch_next(
        &mut self,
        graph: &Graph,
        fifos: &FifoTable,
        place: Place,
    ) -> Result<(), OutOfMemory>
        requires { HasAccesses graph.now.lanes fifos.now.channels }
    {
        match place.step.checked_add(1) {
            Some(step) => self.touch(
                graph,
                fifos,
                Place {
                    module: place.module,
                    step,
                },
            ),
            None => Ok(()),
        }
    }

    /// Touches the steps that wait for the pushes and pops of a step.
    fn touch_enabled(
        &mut self,
        graph: &Graph,
        fifos: &FifoTable,
        place: Place,
    ) -> Result<(), OutOfMemory>
        requires { HasAccesses graph.now.lanes fifos.now.channels }
    {
        if !has_cycle(graph, place) {
            return Ok(());
        }
        let step = graph.look(place);
        for access in step.accesses.iter() {
            if let Some(enabled) = enabled_by(fifos, &access) {
                self.touch(graph, fifos, enabled)?;
            }
        }
        Ok(())
    }

    /// Notes a step for a visit, if it must have another cycle in the draft, or waits.
    fn touch(&mut self, graph: &Graph, fifos: &FifoTable, place: Place) -> Result<(), OutOfMemory>
        requires { HasAccesses graph.now.lanes fifos.now.channels }
    {
        let Some(old) = self.draft.cycle(place) else {
            return Ok(());
        };
        let clock = due_cycle(&self.draft, graph, fifos, place).unwrap_or(0);
        if clock != old {
            self.due
                .push(Reverse((clock.min(old), place.module, place.step)))?;
        }
        Ok(())
    }
}

/// The step at the other side of the channel that waits for what the access takes. `None` where there is none.
fn enabled_by(fifos: &FifoTable, access: &Access) -> Option<Place>
    requires { IsAccess fifos.now.channels access.now }
{
    let side = access.kind.side().other();
    let before = (access.ordinal - 1).checked_add(fifos.free(access.channel, side))?;
    fifos.place(access.channel, side, before)
}
