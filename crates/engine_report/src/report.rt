//! The report.
ghost use Rattle.std.specs.Prelude.{◌≡◌, true, false, [], IfOk};
ghost use Rattle.engine_report.specs.{HoldsEnd, report_with, AreEvents};
ghost use Rattle.lockstep_defs.specs.Verdict as lockstep;

use crate::answers::answers;
use crate::events::events;
use crate::held::held_with;
use crate::outputs::outputs;
use crate::verdict::verdict;
use engine_view::Engine;
use event_graph::Graph;
use flow_design::{EventLine, Plan, Report, Verdict};
use flow_word::{List, OutOfMemory};
use std::alloc::Global;
use timing_bridge::{every_report, steps_in_order};

/// The report of a plan, read off what an engine holds at the end of its simulation: the steps of all modules with their cycles,
/// the pushes and pops, the outcomes of queries, and the end mark of each module whose own run has come to its end. It is the
/// report of the lockstep machine, with its events if they are asked for, else with none.
///
/// It takes memory for the report and, where events are asked for, for one key for each step: the keys are sorted. `OutOfMemory` where
/// memory ran out.
pub fn report_of(
    alloc: Global,
    plan: &Plan,
    engine: &Engine,
    with_events: bool,
) -> Result<Report, OutOfMemory>
    requires { HoldsEnd plan.now engine.now }
    ensures { IfOk result (λ report. report ≡ report_with with_events plan.now) }
{
    every_report();
    steps_in_order();
    let verdict = verdict(engine, plan.cycles);
    Ok(Report {
        verdict,
        outputs: outputs(alloc, plan, engine)?,
        held: held_with(alloc, engine, verdict)?,
        events: events_if(alloc, &engine.graph, with_events)?,
        answers: answers(alloc, engine)?,
    })
}

/// The verdict of a plan, read off what an engine holds at the end of its simulation. It is the lockstep machine's. It takes no
/// memory.
pub fn verdict_of(plan: &Plan, engine: &Engine) -> Verdict
    requires { HoldsEnd plan.now engine.now }
    ensures { result ≡ lockstep.verdict plan.now }
{
    every_report();
    steps_in_order();
    verdict(engine, plan.cycles)
}

/// The events if they are asked for, else none.
fn events_if(alloc: Global, graph: &Graph, asked: bool) -> Result<List<EventLine>, OutOfMemory>
    ensures asked { asked ≡ true → IfOk result (AreEvents graph.now.lanes) }
    ensures none { asked ≡ false → IfOk result (λ events. events ≡ []) }
{
    if !asked {
        return Ok(List::new(alloc));
    }
    events(alloc, graph)
}
