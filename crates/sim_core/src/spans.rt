//! The spans of a final core's modules.
ghost use Rattle.std.specs.Prelude.{◌≡◌, ◌<◌, length, IfOk};
ghost use Rattle.sim_core.specs.{verdict, clock_of, AreSpans};

use crate::final_core::FinalCore;
use engine_report::spans_of;
use flow_word::{List, OutOfMemory};
use std::alloc::Global;
use timelines::Span;

impl<'a> FinalCore<'a> {
    /// The spans of a module of a final core, in order, where `clock` is that of the plan's verdict. They are the lockstep
    /// machine's.
    ///
    /// It looks once at each of the module's steps and accesses, and takes memory for the spans. `OutOfMemory` where memory ran out.
    pub fn spans(&self, alloc: Global, owner: u32, clock: u64) -> Result<List<Span>, OutOfMemory>
        requires owner { owner < length self.now.plan.design.modules }
        requires clock { clock ≡ clock_of (verdict self.now.plan) }
        ensures { IfOk result (AreSpans self.now.plan owner) }
    {
        let core = self.core();
        spans_of(alloc, &core.engine, owner, clock)
    }
}
