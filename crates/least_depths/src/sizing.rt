//! The sizes of a plan's FIFOs.
ghost use Rattle.std.specs.Prelude.{◌≡◌, ◌+◌, ◌<◌, ◌≤◌, length, IfOk, OnOk};
ghost use Rattle.least_depths.specs.{FitsEngine, verdict, with_depths, AsksNothing, IsDoneBy, limited, lowered, sizes_of, sizes};
ghost use Rattle.least_depths.specs.{first_runs, most_slack};

use crate::bounds::latest_clocks;
use crate::halving::lower_all;
use depth_advice::advised_depths;
use depth_session::{DepthSession, Runner};
use flow_design::{CheckedPlan, Plan, Verdict};
use flow_word::{List, OutOfMemory, TryCopy, Words};
use std::alloc::Global;
use std::sync::Wait;
use std::thread::Threads;

/// Depths for the FIFOs of a plan, the verdict of the plan with them, and how many depths were tried.
pub struct Sizes {
    /// The verdict of the plan with these depths.
    pub verdict: Verdict,
    /// One entry per channel: the depth of a FIFO, in elements, or 0 for a channel of another kind.
    pub depths: Words,
    /// How many depths halving tried.
    pub tries: u64,
}

impl Drop for Sizes {
    fn drop(self) {
        let Sizes {
            verdict: _verdict,
            depths: _depths,
            tries: _tries,
        } = self;
    }
}

/// The smallest FIFOs that lose no more than `slack` clocks. Where the plan with the advised depths is done, its FIFOs are lowered
/// one after the other, in order of declaration, each to what halving finds between 1 and its advised depth with an end at most
/// `slack` clocks later. Otherwise the depths are the advised ones.
///
/// `sizes_lose_nothing` says what that means. It calls the runner at most twice, and at most once more for each depth that is tried
/// and for each channel, since an edit may change the outcome of a query. Where no operation is a query, it calls the runner once
/// for the advice, and once more where the plan with the advised depths is done. It takes memory for the runs and the edits.
/// `OutOfMemory` where memory ran out.
pub fn find_sizes<R: Threads + Wait + Sync, U: Runner>(
    rt: &R,
    alloc: Global,
    plan: &CheckedPlan,
    slack: u64,
    runner: &mut U,
) -> Result<Sizes, OutOfMemory>
    requires { slack ≤ most_slack }
    ensures found { IfOk result (λ found. found ≡ sizes slack plan.now) }
    ensures made { U.made runner.new ≤ U.made runner.old + 2 + (sizes slack plan.now).tries + length plan.now.design.channels }
    ensures quiet { AsksNothing plan.now → U.made runner.old + 2 ≤ u64.MAX
        → OnOk result (U.made runner.new ≡ U.made runner.old + first_runs (sizes slack plan.now).verdict) }
{
    plan.fits();
    let own = plan.try_copy(alloc)?;
    let advice = advised_depths(rt, alloc, own, runner)?;
    match advice.verdict {
        Verdict::Done(clock) => lower_depths(rt, alloc, plan, advice.depths, clock + slack, runner),
        Verdict::Deadlock(_) | Verdict::Cycles(_) | Verdict::Ops(_) => Ok(Sizes {
            verdict: advice.verdict,
            depths: advice.depths,
            tries: 0,
        }),
    }
}

/// Lowers the depths of a plan's FIFOs as long as the plan ends by this clock, as it does with the given depths.
///
/// Each try stops at that clock, if the plan's own cycle limit does not come sooner.
fn lower_depths<R: Threads + Wait + Sync, U: Runner>(
    rt: &R,
    alloc: Global,
    plan: &CheckedPlan,
    depths: Words,
    clock: u64,
    runner: &mut U,
) -> Result<Sizes, OutOfMemory>
    requires fits { FitsEngine (with_depths plan.now depths) }
    requires in_time { IsDoneBy clock (verdict (with_depths plan.now depths)) }
    ensures found { IfOk result (λ found. found
        ≡ sizes_of (lowered (with_depths plan.now depths) clock (length plan.now.design.channels))) }
    ensures made { U.made runner.new ≤ U.made runner.old + 1
        + (lowered (with_depths plan.now depths) clock (length plan.now.design.channels)).tries + length plan.now.design.channels }
    ensures quiet { AsksNothing plan.now → U.made runner.old < u64.MAX → OnOk result (U.made runner.new ≡ U.made runner.old + 1) }
{
    let copy = plan.try_copy(alloc)?;
    let mut own = copy.into_plan();
    own.depths = depths;
    limit_cycles(&mut own, clock);
    let limited = CheckedPlan::new(own);
    let mut session = DepthSession::new(rt, alloc, limited, runner)?;
    let latest = latest_clocks(alloc, &session, clock);
    let tries = lower_all(rt, alloc, &mut session, &latest, clock, runner)?;
    Ok(Sizes {
        verdict: session.verdict(),
        depths: List::from_slice(alloc, session.plan().depths.as_slice())?,
        tries,
    })
}

/// Lowers a plan's cycle limit to this clock, but no lower than 1, where the limit is later.
fn limit_cycles(plan: &mut Plan, clock: u64)
    ensures { plan.new ≡ limited clock plan.old }
{
    if clock < plan.cycles {
        plan.cycles = clock.max(1);
    }
}
