//! The answer to `advise`.
ghost use Rattle.std.specs.Prelude.{◌≡◌, IfOk};
ghost use Rattle.whole_answer.specs.{advice};

use crate::answer::Answer;
use crate::ending::Ending;
use depth_advice::{advised_depths, advised_depths_never_block, print_depths};
use depth_session::ThreadRunner;
use flow_design::CheckedPlan;
use flow_word::{List, OutOfMemory, TryCopy};
use report_text::print_verdict;
use run_threads::Gate;
use std::alloc::Global;
use std::sync::Wait;
use std::thread::Threads;

/// The answer to `advise`: the verdict of the plan with FIFOs that never block, and such depths. `OutOfMemory` where memory ran
/// out.
#[tactic(auto, unfolding(crate::specs::Further::advice))]
pub(crate) fn advise_depths<R: Threads + Wait + Sync, G: Gate + Sync>(
    rt: &R,
    alloc: Global,
    plan: CheckedPlan,
    gate: &G,
) -> Result<Answer, OutOfMemory>
    ensures { IfOk result (λ whole. whole ≡ advice plan) }
{
    advised_depths_never_block();
    plan.fits();
    let own = plan.try_copy(alloc)?;
    let found = advised_depths(rt, alloc, own, &mut ThreadRunner::new(gate))?;
    let mut text = List::from_slice(alloc, b"advise\n")?;
    print_verdict(&mut text, found.verdict)?;
    print_depths(&mut text, plan.channels(), found.depths.as_slice())?;
    Ok(Answer {
        text,
        ending: Ending::of(found.verdict),
    })
}
