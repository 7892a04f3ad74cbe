//! The report of a final core.
ghost use Rattle.std.specs.Prelude.{◌≡◌, IfOk, IfSome, IsNone, OnErr, OnSome};
ghost use Rattle.sim_core.specs.{IsFinal, design, report_with, theory_of};
ghost use Rattle.lockstep_defs.specs.Verdict as lockstep;

use crate::final_core::FinalCore;
use crate::machine::Core;
use engine_report::{report_of, verdict_of};
use flow_design::{Report, Verdict};
use flow_word::OutOfMemory;
use std::alloc::Global;

impl<'a> FinalCore<'a> {
    /// The verdict of a final core: it is the lockstep machine's. It takes no memory.
    pub fn verdict(&self) -> Verdict
        ensures { result ≡ lockstep.verdict self.now.plan }
    {
        let core = self.core();
        verdict_of(&core.plan, &core.engine)
    }

    /// The report of a final core: it is the lockstep machine's, with its events if they are asked for, else with none.
    ///
    /// It takes memory for the report and, where events are asked for, for one key for each step. `OutOfMemory` where memory ran out.
    pub fn report(&self, alloc: Global, with_events: bool) -> Result<Report, OutOfMemory>
        ensures { IfOk result (λ report. report ≡ report_with with_events self.now.plan) }
    {
        let core = self.core();
        report_of(alloc, &core.plan, &core.engine, with_events)
    }
}

impl Core {
    /// The report of a core that is final, with its events if they are asked for, else with none. `None` where an action is
    /// permitted.
    ///
    /// It takes memory for the report and, where events are asked for, for one key for each step. `OutOfMemory` where memory ran out.
    pub fn final_report(
        &self,
        alloc: Global,
        with_events: bool,
    ) -> Result<Option<Report>, OutOfMemory>
        ensures report { IfOk result (λ found. IfSome found (λ report. report ≡ report_with with_events self.now.plan)) }
        ensures some { IfOk result (λ found. OnSome found (IsFinal (design self.now.plan) self.now.plan.cycles (theory_of self.now))) }
        ensures none { IfOk result (λ found. IsNone found → IsFinal (design self.now.plan) self.now.plan.cycles (theory_of self.now) → ⊥) }
        ensures no_memory { OnErr result (IsFinal (design self.now.plan) self.now.plan.cycles (theory_of self.now)) }
    {
        if !self.is_final() {
            return Ok(None);
        }
        let report = FinalCore::new(self).report(alloc, with_events)?;
        Ok(Some(report))
    }
}
