//! Adding a step, with its pushes and pops, or the mark of an end.
ghost use Rattle.std.specs.Prelude.{◌<◌, length};
ghost use Rattle.engine_view.specs.{CanEmit, HasEmitted, HasEmittedEnd, new_step, IsFewIfCopied};

use crate::engine::Engine;
use crate::take::take_all;
use event_graph::{LaneAccesses, NewStep, Place};
use flow_design::Advance;

impl Engine {
    /// Adds a step of a module, and the pushes and pops of its blocking accesses. There must be room for them.
    #[inline(always)]
    pub fn emit_step(&mut self, owner: u32, step: NewStep<'_>)
        requires few { IsFewIfCopied step }
        requires step { CanEmit self.old owner (new_step step) }
        ensures emitted { HasEmitted self.old owner (new_step step.entry) self.new }
    {
        let at = Place {
            module: owner,
            step: self.graph.len(owner),
        };
        take_all(
            &mut self.fifos,
            &self.log,
            at,
            step.first_query(),
            &LaneAccesses::of_slice(step.accesses()),
            false,
        );
        let credit = &mut self.credits[owner as usize];
        *credit = credit.saturating_sub(2);
        // The lane has room for the step.
        let _ = self.graph.push_step(owner, step);
    }

    /// Marks the end of a module's own run.
    pub fn emit_end(&mut self, owner: u32, end: Advance)
        requires { owner < length self.old.ends.items }
        ensures { HasEmittedEnd self.old owner end self.new }
    {
        self.ends[owner as usize] = Some(end);
    }
}
