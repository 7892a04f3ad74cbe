//! Simulations in rounds, which report as the lockstep machine does.
ghost use Rattle.std.specs.Prelude.{IfOk};
ghost use Rattle.thread_tests.specs.{hub_id, AreResting};

use crate::passes::{Passes, TurnAnswer, closes_with, module_turns, open, perf_turn, turned_round};
use sim_hub::Hub;
use std::process::Abort;
use std::sync::Wait;
use std::test::Fail;
use worked_sessions::{DEADLOCKS, DELAYS, DESIGNS, EDITS, LIMITS, QUERIES, SessionParts, Worked};

/// A round: the pass of each module takes its turns, in order, and with `after_each` the performance pass takes a turn after each.
/// Returns whether all modules wait.
fn round<R: AllocGlobal + Wait + Abort>(
    rt: &R,
    hub: &Hub,
    passes: Passes,
    after_each: bool,
) -> Result<(Passes, bool), Fail>
    requires resting { AreResting (hub_id hub.now) passes.perf passes.modules.items }
    ensures resting { IfOk result (λ r. AreResting (hub_id hub.now) r.0.perf r.0.modules.items) }
{
    let mut passes = passes;
    let mut all_wait = true;
    for which in 0..passes.modules.len() {
        let (back, answer) = module_turns(rt, hub, passes, which)?;
        passes = if after_each {
            perf_turn(rt, hub, back).0
        } else {
            back
        };
        if let TurnAnswer::Made(_) = answer {
            all_wait = false;
        }
    }
    Ok((passes, all_wait))
}

/// A round, and after it a turn of the performance pass if all modules wait. Returns whether all is over.
fn round_on<R: AllocGlobal + Wait + Abort>(
    rt: &R,
    hub: &Hub,
    passes: Passes,
    after_each: bool,
) -> Result<(Passes, bool), Fail>
    requires resting { AreResting (hub_id hub.now) passes.perf passes.modules.items }
    ensures resting { IfOk result (λ r. AreResting (hub_id hub.now) r.0.perf r.0.modules.items) }
{
    let (back, all_wait) = round(rt, hub, passes, after_each)?;
    if !all_wait {
        return Ok((back, false));
    }
    let (back, answer) = perf_turn(rt, hub, back);
    Ok((back, answer == TurnAnswer::Over))
}

/// Rounds until all is over.
fn come_to_end<R: AllocGlobal + Wait + Abort>(
    rt: &R,
    hub: &Hub,
    passes: Passes,
    after_each: bool,
) -> Result<Passes, Fail>
    requires resting { AreResting (hub_id hub.now) passes.perf passes.modules.items }
    ensures resting { IfOk result (λ r. AreResting (hub_id hub.now) r.perf r.modules.items) }
{
    let mut passes = passes;
    for _ in 0..1_000 {
        let (back, over) = round_on(rt, hub, passes, after_each)?;
        if over {
            return Ok(back);
        }
        passes = back;
    }
    panic!(rt; "it comes to no end")
}

/// Asserts that rounds to the end report as the lockstep machine does. With `after_each` the performance pass takes a turn after
/// each module's turns, and the hub closes with the passes in order. Without it the performance pass takes a turn only where all
/// modules wait, and the hub closes with the passes in the opposite order.
fn reports_as_lockstep<R: AllocGlobal + Wait + Abort>(
    rt: &R,
    text: SessionParts,
    after_each: bool,
) -> Result<(), Fail> {
    let (hub, passes, report) = open(rt, text)?;
    let passes = come_to_end(rt, &hub, passes, after_each)?;
    let passes = if after_each {
        passes
    } else {
        turned_round(&hub, passes)
    };
    closes_with(rt, hub, passes, report)
}

/// Asserts that each of these sessions has the lockstep machine's report.
fn report_as_lockstep<R: AllocGlobal + Wait + Abort>(
    rt: &R,
    table: &[Worked],
    after_each: bool,
) -> Result<(), Fail> {
    for worked in table {
        reports_as_lockstep(rt, worked.text, after_each)?;
    }
    Ok(())
}

#[test]
fn hubs_report_as_lockstep(rt: HostRuntime) -> Result<(), Fail> {
    for after_each in [true, false] {
        report_as_lockstep(&rt, DESIGNS, after_each)?;
        report_as_lockstep(&rt, QUERIES, after_each)?;
        report_as_lockstep(&rt, LIMITS, after_each)?;
        report_as_lockstep(&rt, DEADLOCKS, after_each)?;
        report_as_lockstep(&rt, EDITS, after_each)?;
        report_as_lockstep(&rt, DELAYS, after_each)?;
    }
    Ok(())
}
