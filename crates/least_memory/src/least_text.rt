//! The text of the least memory.
ghost use Rattle.std.specs.Prelude.{◌≡◌, ◌≤◌, ◌++◌, ◌∷◌, [], codes, decimal, IfOk, OnOk};
ghost use Rattle.least_memory.specs.{line, AsksNothing, most_slack, leasts, least_text};

use crate::demands::widths_of;
use crate::finding::find_least;
use depth_advice::print_depths;
use depth_cuts::bits_of;
use depth_session::Runner;
use flow_design::{CheckedPlan, Verdict};
use flow_word::{List, OutOfMemory};
use report_text::{print_verdict, push_value};
use std::alloc::Global;
use std::sync::Wait;
use std::thread::Threads;

/// The least memory of a plan's FIFOs as a text.
#[derive(Drop)]
pub struct LeastText {
    /// `least`, the line of the verdict, `bits N`, and a line `depth NAME D` for each FIFO in order of declaration.
    pub text: List<u8>,
    /// The verdict of the plan with these depths.
    pub verdict: Verdict,
}

impl LeastText {
    /// The text of the least memory, without the verdict.
    pub fn into_text(self) -> List<u8>
        ensures { result ≡ self.text }
    {
        let LeastText {
            text,
            verdict: _verdict,
        } = self;
        text
    }
}

/// The text of the depths with the fewest bits that lose no more than `slack` clocks, which `find_least` finds.
///
/// It calls the runner as often as `find_least`. It takes memory for what that does and for the text. `OutOfMemory` where memory
/// ran out.
#[tactic(auto, unfolding(crate::specs::LeastText::least_text))]
pub fn tell_least<R: Threads + Wait + Sync, U: Runner>(
    rt: &R,
    alloc: Global,
    plan: &CheckedPlan,
    slack: u64,
    runner: &mut U,
) -> Result<LeastText, OutOfMemory>
    requires slack { slack ≤ most_slack }
    requires quiet { AsksNothing plan.now }
    ensures text { IfOk result (λ told. told.text ≡ least_text slack plan.now) }
    ensures verdict { IfOk result (λ told. told.verdict ≡ (leasts slack plan.now).verdict) }
{
    plan.fits();
    let found = find_least(rt, alloc, plan, slack, runner)?;
    let channels = plan.channels();
    let widths = widths_of(alloc, channels)?;
    let mut text = List::from_slice(alloc, b"least\n")?;
    print_verdict(&mut text, found.verdict)?;
    let bits = bits_of(widths.as_slice(), found.depths.as_slice());
    print_bits(&mut text, bits)?;
    print_depths(&mut text, channels, found.depths.as_slice())?;
    Ok(LeastText {
        text,
        verdict: found.verdict,
    })
}

/// Adds the line `bits N`. After `OutOfMemory` the text may have part of it.
#[tactic(auto, using(crate::proofs::BitsLine::line_of_two))]
fn print_bits(text: &mut List<u8>, bits: u64) -> Result<(), OutOfMemory>
    ensures { OnOk result (text.new ≡ text.old ++ line (codes "bits" ∷ decimal bits ∷ [])) }
{
    text.extend_from_slice(b"bits")?;
    push_value(text, bits)?;
    text.push(b'\n')
}
