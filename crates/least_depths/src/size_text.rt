//! The text of the sizes.
ghost use Rattle.std.specs.Prelude.{◌≡◌, ◌+◌, ◌≤◌, length, IfOk, OnOk};
ghost use Rattle.least_depths.specs.{AsksNothing, sizes, first_runs, most_slack, size_text};

use crate::sizing::find_sizes;
use depth_advice::print_depths;
use depth_session::Runner;
use flow_design::{CheckedPlan, Verdict};
use flow_word::{List, OutOfMemory};
use report_text::print_verdict;
use std::alloc::Global;
use std::sync::Wait;
use std::thread::Threads;

/// The sizes of a plan's FIFOs as a text.
#[derive(Drop)]
pub struct SizeText {
    /// `size`, the line of the verdict, and a line `depth NAME D` for each FIFO in order of declaration.
    pub text: List<u8>,
    /// The verdict of the plan with these depths.
    pub verdict: Verdict,
}

impl SizeText {
    /// The text of the sizes, without the verdict.
    pub fn into_text(self) -> List<u8>
        ensures { result ≡ self.text }
    {
        let SizeText {
            text,
            verdict: _verdict,
        } = self;
        text
    }
}

/// The text of the smallest FIFOs that lose no more than `slack` clocks, which `find_sizes` finds.
///
/// It calls the runner as often as `find_sizes`. It takes memory for what that does and for the text. `OutOfMemory` where memory
/// ran out.
#[tactic(auto, unfolding(crate::specs::SizeText::size_text))]
pub fn tell_sizes<R: Threads + Wait + Sync, U: Runner>(
    rt: &R,
    alloc: Global,
    plan: &CheckedPlan,
    slack: u64,
    runner: &mut U,
) -> Result<SizeText, OutOfMemory>
    requires { slack ≤ most_slack }
    ensures text { IfOk result (λ told. told.text ≡ size_text slack plan.now) }
    ensures verdict { IfOk result (λ told. told.verdict ≡ (sizes slack plan.now).verdict) }
    ensures made { U.made runner.new ≤ U.made runner.old + 2 + (sizes slack plan.now).tries + length plan.now.design.channels }
    ensures quiet { AsksNothing plan.now → U.made runner.old + 2 ≤ u64.MAX
        → OnOk result (U.made runner.new ≡ U.made runner.old + first_runs (sizes slack plan.now).verdict) }
{
    plan.fits();
    let found = find_sizes(rt, alloc, plan, slack, runner)?;
    let mut text = List::from_slice(alloc, b"size\n")?;
    print_verdict(&mut text, found.verdict)?;
    print_depths(&mut text, plan.channels(), found.depths.as_slice())?;
    Ok(SizeText {
        text,
        verdict: found.verdict,
    })
}
