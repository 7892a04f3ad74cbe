//! Finds the depths with the fewest bits.
ghost use Rattle.std.specs.Prelude.{◌≡◌, ◌≤◌, ◌<◌, ◌^◌, length, Some, IfOk};
ghost use Rattle.least_memory.specs.{verdict, with_depths, AsksNothing, IsDoneBy, AreDeepest, most_slack, leasts, least_by};

use crate::demands::{cheapest_of, first_demands};
use crate::trying::{Outcome, try_depths};
use depth_advice::{read_depths, widen};
use depth_cuts::Cut;
use depth_session::{FinalCore, Runner};
use flow_design::{CheckedPlan, Verdict};
use flow_word::{List, OutOfMemory, TryCopy, Words};
use std::alloc::Global;
use std::sync::Wait;
use std::thread::Threads;

/// Depths for the FIFOs of a plan, and the verdict of the plan with them.
pub struct Leasts {
    /// The verdict of the plan with these depths.
    pub verdict: Verdict,
    /// One entry per channel: the depth of a FIFO, in elements, or 0 for a channel of another kind.
    pub depths: Words,
}

impl Drop for Leasts {
    fn drop(self) {
        let Leasts {
            verdict: _verdict,
            depths: _depths,
        } = self;
    }
}

/// The depths with the fewest bits of FIFO memory with which a plan loses no more than `slack` clocks. Where the plan with the
/// advised depths is done, they are those with the fewest bits among all choices with an end at most `slack` clocks later; of
/// several, the first in lexicographic order. Otherwise they are the advised depths.
///
/// `least_memory_is_least` says what that means. The plan has no query. It calls the runner once for the plan with the deepest
/// FIFOs, and once more for each choice that no path of steps shows to be too late. It takes memory for two runs at a time, and for
/// the cuts that are found. No clause says that it is quick: in the worst case there are as many cuts as choices. `OutOfMemory`
/// where memory ran out.
pub fn find_least<R: Threads + Wait + Sync, U: Runner>(
    rt: &R,
    alloc: Global,
    plan: &CheckedPlan,
    slack: u64,
    runner: &mut U,
) -> Result<Leasts, OutOfMemory>
    requires slack { slack ≤ most_slack }
    requires quiet { AsksNothing plan.now }
    ensures { IfOk result (λ found. found ≡ leasts slack plan.now) }
{
    plan.fits();
    let own = plan.try_copy(alloc)?;
    let run = runner.run_plan(rt, alloc, widen(own))?;
    let core = FinalCore::new(&run);
    match core.verdict() {
        Verdict::Done(clock) => fewest_bits(rt, alloc, &core, clock + slack, runner),
        Verdict::Deadlock(_) | Verdict::Cycles(_) | Verdict::Ops(_) => {
            let advice = read_depths(alloc, &core)?;
            Ok(Leasts {
                verdict: advice.verdict,
                depths: advice.depths,
            })
        }
    }
}

/// Tells that a list of cuts has fewer than 2^64 items. It does nothing.
#[inline(always)]
fn stays_short(cuts: &List<Cut>)
    ensures { length cuts.now < 2 ^ 64 }
{
    let _count = cuts.len();
}

/// The depths with the fewest bits with which the plan of a core ends by a clock. The core's plan has the deepest FIFOs, and ends
/// by that clock. `OutOfMemory` where memory ran out.
fn fewest_bits<R: Threads + Wait + Sync, U: Runner>(
    rt: &R,
    alloc: Global,
    core: &FinalCore<'_>,
    clock: u64,
    runner: &mut U,
) -> Result<Leasts, OutOfMemory>
    requires quiet { AsksNothing core.now.plan }
    requires deepest { AreDeepest core.now.plan }
    requires done { IsDoneBy clock (verdict core.now.plan) }
    ensures least { IfOk result (λ found. least_by core.now.plan clock ≡ Some found.depths) }
    ensures told { IfOk result (λ found. found.verdict ≡ verdict (with_depths core.now.plan found.depths)) }
{
    core.agrees();
    let mut demands = first_demands(alloc, core, clock)?;
    loop {
        stays_short(&demands.cuts);
        let depths = cheapest_of(alloc, core, &demands, clock)?;
        match try_depths(rt, alloc, core, depths.as_slice(), clock, runner)? {
            Outcome::Late(cut) => demands.cuts.push(cut)?,
            Outcome::Ended(verdict) => return Ok(Leasts { verdict, depths }),
        }
    }
}
