//! The advice on the depths of a plan's FIFOs.
ghost use Rattle.std.specs.Prelude.{◌≡◌, ◌+◌, ◌<◌, ◌≤◌, IfOk};
ghost use Rattle.depth_advice.specs.{with_depths, AreDepths, AsksNothing, peak, depths_by, wide, advised, AreFastest};
ghost use Rattle.lockstep_defs.specs.Report as lockstep;

use crate::peaks::depths_above;
use crate::widening::widen;
use depth_session::{FinalCore, Runner};
use flow_design::{CheckedPlan, Report, Verdict};
use flow_word::{OutOfMemory, Words};
use std::alloc::Global;
use std::sync::Wait;
use std::thread::Threads;

/// The report of a plan in which no FIFO ever blocks, and depths with which none does.
pub struct Advice {
    /// The report of the plan with each FIFO as deep as the language allows.
    pub report: Report,
    /// One entry per channel: the advised depth of a FIFO, in elements, or 0 for a channel of another kind.
    pub depths: Words,
}

impl Drop for Advice {
    fn drop(self) {
        let Advice {
            report: _report,
            depths: _depths,
        } = self;
    }
}

impl Advice {
    /// The advised depths, without the report.
    pub fn into_depths(self) -> Words
        ensures { result ≡ self.depths }
    {
        let Advice {
            report: _report,
            depths,
        } = self;
        depths
    }
}

/// Advises depths with which no FIFO of the plan ever blocks: for each FIFO, one more than the most elements that it holds in any
/// clock up to the verdict's, where all FIFOs are as deep as the language allows. No clause says that these are the least such
/// depths.
///
/// The plan with these depths has the report of the plan with the greatest ones. Where no operation is a query and some depths lead
/// to an end, these lead to an end no later.
///
/// It calls the runner once, whether or not there is memory enough. It takes memory for that run, for its report with the events,
/// for the clocks of one FIFO's pushes and pops at a time, and for a number of each channel. `OutOfMemory` where memory ran out.
/// The plan is used up either way.
pub fn advise<R: Threads + Wait + Sync, U: Runner>(
    rt: &R,
    alloc: Global,
    plan: CheckedPlan,
    runner: &mut U,
) -> Result<Advice, OutOfMemory>
    ensures report { IfOk result (λ advice. advice.report ≡ lockstep.report (wide plan)) }
    ensures depths { IfOk result (λ advice. advice.depths ≡ advised plan) }
    ensures within { IfOk result (λ advice. AreDepths plan advice.depths) }
    ensures never_block { IfOk result (λ advice. lockstep.report (with_depths plan advice.depths) ≡ advice.report) }
    ensures fastest { AsksNothing plan → IfOk result (λ advice. AreFastest plan advice.depths) }
    ensures counted { U.made runner.old < u64.MAX → U.made runner.new ≡ U.made runner.old + 1 }
    ensures stays { u64.MAX ≤ U.made runner.old → U.made runner.new ≡ U.made runner.old }
{
    plan.fits();
    let core = runner.run_plan(rt, alloc, widen(plan))?;
    read_advice(alloc, &FinalCore::new(&core))
}

/// The verdict of a plan in which no FIFO ever blocks, and depths with which none does.
#[derive(Drop)]
pub struct DepthAdvice {
    /// The verdict of the plan with each FIFO as deep as the language allows.
    pub verdict: Verdict,
    /// One entry per channel: the advised depth of a FIFO, in elements, or 0 for a channel of another kind.
    pub depths: Words,
}

/// The depths that `advise` advises, with the verdict alone instead of the report.
///
/// It calls the runner once, whether or not there is memory enough. It takes memory for that run, for the clocks of one FIFO's
/// pushes and pops at a time, and for a number of each channel. `OutOfMemory` where memory ran out. The plan is used up either way.
pub fn advised_depths<R: Threads + Wait + Sync, U: Runner>(
    rt: &R,
    alloc: Global,
    plan: CheckedPlan,
    runner: &mut U,
) -> Result<DepthAdvice, OutOfMemory>
    ensures verdict { IfOk result (λ advice. advice.verdict ≡ (lockstep.report (wide plan)).verdict) }
    ensures depths { IfOk result (λ advice. advice.depths ≡ advised plan) }
    ensures counted { U.made runner.old < u64.MAX → U.made runner.new ≡ U.made runner.old + 1 }
    ensures stays { u64.MAX ≤ U.made runner.old → U.made runner.new ≡ U.made runner.old }
{
    let core = runner.run_plan(rt, alloc, widen(plan))?;
    read_depths(alloc, &FinalCore::new(&core))
}

/// The verdict of a final core, and for each FIFO of its plan a depth one above its peak. `OutOfMemory` where memory ran out.
pub fn read_depths(alloc: Global, core: &FinalCore<'_>) -> Result<DepthAdvice, OutOfMemory>
    ensures verdict { IfOk result (λ advice. advice.verdict ≡ (lockstep.report core.now.plan).verdict) }
    ensures depths { IfOk result (λ advice. advice.depths ≡ depths_by core.now.plan (λ f. peak core.now.plan f + 1)) }
{
    Ok(DepthAdvice {
        verdict: core.verdict(),
        depths: depths_above(alloc, core)?,
    })
}

/// The report of a final core, and for each FIFO of its plan a depth one above its peak. `OutOfMemory` where memory ran out.
fn read_advice(alloc: Global, core: &FinalCore<'_>) -> Result<Advice, OutOfMemory>
    ensures report { IfOk result (λ advice. advice.report ≡ lockstep.report core.now.plan) }
    ensures depths { IfOk result (λ advice. advice.depths ≡ depths_by core.now.plan (λ f. peak core.now.plan f + 1)) }
{
    Ok(Advice {
        report: core.report(alloc, true)?,
        depths: depths_above(alloc, core)?,
    })
}
