//! Tries depths for the plan of a core.
ghost use Rattle.std.specs.Prelude.{◌≡◌, IfOk};
ghost use Rattle.least_memory.specs.{AreDepths, AsksNothing, AreDeepest, IsOutcome};

use depth_cuts::{Cut, deeper_ones, find_cut};
use depth_session::{FinalCore, Runner};
use flow_design::{CheckedPlan, Verdict, copy_plan};
use flow_word::{List, OutOfMemory};
use least_depths::is_done_by;
use std::alloc::Global;
use std::sync::Wait;
use std::thread::Threads;

/// What trying some depths shows.
#[derive(Drop)]
pub(crate) enum Outcome {
    /// With these depths the plan ends too late. They do not meet this cut, but all depths do with which the plan ends in time.
    Late(Cut),
    /// With these depths the plan ends in time, with this verdict.
    Ended(Verdict),
}

/// Tries whether the plan of a core, whose own FIFOs are as deep as the language allows, is done by a clock with these depths.
/// Where a path of steps shows that it is not, the plan is not simulated.
///
/// It calls the runner at most once. It takes memory for the path and for the run. `OutOfMemory` where memory ran out.
pub(crate) fn try_depths<R: Threads + Wait + Sync, U: Runner>(
    rt: &R,
    alloc: Global,
    core: &FinalCore<'_>,
    depths: &[u64],
    clock: u64,
    runner: &mut U,
) -> Result<Outcome, OutOfMemory>
    requires quiet { AsksNothing core.now.plan }
    requires deepest { AreDeepest core.now.plan }
    requires depths { AreDepths core.now.plan depths.now }
    ensures { IfOk result (λ outcome. IsOutcome core.now.plan clock depths.now outcome) }
{
    core.agrees();
    if let Some(cut) = find_cut(alloc, core.engine(), depths, clock)? {
        return Ok(Outcome::Late(cut));
    }
    let mut plan = copy_plan(alloc, core.plan())?;
    plan.depths = List::from_slice(alloc, depths)?;
    let own = CheckedPlan::new(plan);
    let run = runner.run_plan(rt, alloc, own)?;
    let verdict = FinalCore::new(&run).verdict();
    if is_done_by(verdict, clock) {
        return Ok(Outcome::Ended(verdict));
    }
    Ok(Outcome::Late(deeper_ones(alloc, depths)?))
}
