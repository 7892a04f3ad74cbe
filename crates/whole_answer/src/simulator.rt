//! The lockstep machine as a simulator.
ghost use Rattle.std.specs.Prelude.{◌≡◌, IfOk};
ghost use Rattle.whole_answer.specs.{AreCodes, report_with};

use clock_machine::{BlockCode, clock_run_by};
use flow_design::{CheckedPlan, Report};
use flow_word::{List, OutOfMemory};
use std::alloc::Global;

/// The report of a plan by the lockstep machine, from the code of its blocks: with its events if `events` is set, and without
/// otherwise. `OutOfMemory` where memory ran out.
pub(crate) fn clock_report(
    alloc: Global,
    plan: &CheckedPlan,
    codes: &[List<BlockCode>],
    events: bool,
) -> Result<Report, OutOfMemory>
    requires { AreCodes plan.now codes.now }
    ensures { IfOk result (λ outcome. outcome ≡ report_with events plan.now) }
{
    if events {
        clock_run_by(alloc, plan, codes, true)
    } else {
        clock_run_by(alloc, plan, codes, false)
    }
}
