//! The answers to `size` and `least`.
ghost use Rattle.std.specs.Prelude.{◌≡◌, ◌≤◌, IfOk};
ghost use Rattle.whole_answer.specs.{AsksNothing, most_slack, sized, fewest_bits, least_told};

use crate::answer::Answer;
use crate::ending::Ending;
use crate::refusing::{HAS_QUERY, refuse};
use depth_session::ThreadRunner;
use flow_design::CheckedPlan;
use flow_word::OutOfMemory;
use least_depths::tell_sizes;
use least_memory::tell_least;
use path_check::asks_nothing;
use run_threads::Gate;
use std::alloc::Global;
use std::sync::Wait;
use std::thread::Threads;

/// The answer to `size`: the smallest FIFOs of a plan that lose no more than `slack` clocks, with the status of the verdict with
/// them. `OutOfMemory` where memory ran out.
#[tactic(auto, unfolding(crate::specs::Further::sized))]
pub(crate) fn size_fifos<R: Threads + Wait + Sync, G: Gate + Sync>(
    rt: &R,
    alloc: Global,
    plan: &CheckedPlan,
    slack: u64,
    gate: &G,
) -> Result<Answer, OutOfMemory>
    requires { slack ≤ most_slack }
    ensures { IfOk result (λ whole. whole ≡ sized slack plan.now) }
{
    let told = tell_sizes(rt, alloc, plan, slack, &mut ThreadRunner::new(gate))?;
    let ending = Ending::of(told.verdict);
    Ok(Answer {
        text: told.into_text(),
        ending,
    })
}

/// The answer to `least`: the depths that take the fewest bits, or a refusal where the plan has a query. `OutOfMemory` where memory
/// ran out.
pub(crate) fn least_fifos<R: Threads + Wait + Sync, G: Gate + Sync>(
    rt: &R,
    alloc: Global,
    plan: &CheckedPlan,
    slack: u64,
    gate: &G,
) -> Result<Answer, OutOfMemory>
    requires { slack ≤ most_slack }
    ensures { IfOk result (λ whole. whole ≡ least_told slack plan.now) }
{
    if asks_nothing(plan.plan()) {
        fewest_bits(rt, alloc, plan, slack, gate)
    } else {
        refuse(alloc, HAS_QUERY)
    }
}

/// The depths of a plan's FIFOs that take the fewest bits and lose no more than `slack` clocks, with the status of the verdict with
/// them. `OutOfMemory` where memory ran out.
#[tactic(auto, unfolding(crate::specs::Further::fewest_bits))]
fn fewest_bits<R: Threads + Wait + Sync, G: Gate + Sync>(
    rt: &R,
    alloc: Global,
    plan: &CheckedPlan,
    slack: u64,
    gate: &G,
) -> Result<Answer, OutOfMemory>
    requires slack { slack ≤ most_slack }
    requires quiet { AsksNothing plan.now }
    ensures { IfOk result (λ whole. whole ≡ fewest_bits slack plan.now) }
{
    let told = tell_least(rt, alloc, plan, slack, &mut ThreadRunner::new(gate))?;
    let ending = Ending::of(told.verdict);
    Ok(Answer {
        text: told.into_text(),
        ending,
    })
}
