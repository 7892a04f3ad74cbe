//! The job of a plan and its edits: a report of the plan, and one more after each edit.
ghost use Rattle.std.specs.{Prelude.◌≡◌, Prelude.All, Prelude.IfOk, Prelude.OnErr, Prelude.OnOk, Io.KnownBytes.Appends};
ghost use Rattle.whole_answer.specs.{AppendsPrefix, HasCauseOf, EditFits, FitsEngine, report, report_with, line, runs_tokens};
ghost use Rattle.whole_answer.specs.{report_text_of, job, IsRest};

use crate::answer::Answer;
use crate::ending::Ending;
use crate::host::Host;
use crate::laws::reports_without_events;
use crate::simulator::clock_report;
use cli_words::Simulator;
use clock_machine::codes_of_all;
use depth_session::{AloneRunner, DepthSession, Runner, ThreadRunner};
use flow_design::{CheckedPlan, Edit, Plan, Report};
use flow_word::{List, OutOfMemory};
use outcome_guard::{RunCount, edits_in_order};
use report_text::{print_report, print_runs};
use run_threads::Gate;
use sim_io::{Sink, TellFault, write_all_of};
use std::alloc::Global;
use std::sync::Wait;
use std::thread::Threads;
use timing_bridge::edited_plans_agree;

/// Runs the job of a plan and its edits. It writes each report as it is made, and returns the line of the runs, which is not
/// written yet.
pub(crate) fn job<R: Threads + Wait + Sync, G: Gate + Sync, K: Sink>(
    host: &Host<'_, R, G>,
    by: Simulator,
    events: bool,
    plan: CheckedPlan,
    edits: &[Edit],
    sink: &mut K,
) -> Result<Answer, TellFault>
    requires { All (EditFits plan) edits.now }
    ensures rest { IfOk result (λ rest. IsRest (job events plan edits.now) (K.held sink.old) (K.held sink.new) rest) }
    ensures prefix { OnErr result (AppendsPrefix (K.held sink.old) (K.held sink.new) (job events plan edits.now).text) }
    ensures cause { HasCauseOf TellFault.WriteFault (K.faults sink.old) (K.faults sink.new) result }
{
    match by {
        Simulator::Threads => {
            let mut runner = ThreadRunner::new(host.gate);
            engine_job(host, events, plan, edits, &mut runner, sink)
        }
        Simulator::Alone => engine_job(host, events, plan, edits, &mut AloneRunner::new(), sink),
        Simulator::Clock => clock_job(host.alloc, events, plan, edits, sink),
    }
}

/// Runs the job of a plan and its edits on the event engine, which after an edit computes again only what the edit touches. The
/// runner simulates the plan, and once more whenever an edit changes the outcome of a query.
fn engine_job<R: Threads + Wait + Sync, G: Gate + Sync, U: Runner, K: Sink>(
    host: &Host<'_, R, G>,
    events: bool,
    plan: CheckedPlan,
    edits: &[Edit],
    runner: &mut U,
    sink: &mut K,
) -> Result<Answer, TellFault>
    requires { All (EditFits plan) edits.now }
    ensures rest { IfOk result (λ rest. IsRest (job events plan edits.now) (K.held sink.old) (K.held sink.new) rest) }
    ensures prefix { OnErr result (AppendsPrefix (K.held sink.old) (K.held sink.new) (job events plan edits.now).text) }
    ensures cause { HasCauseOf TellFault.WriteFault (K.faults sink.old) (K.faults sink.new) result }
{
    edits_in_order();
    edited_plans_agree();
    reports_without_events();
    plan.fits();
    let Host { rt, alloc, .. } = *host;
    let mut session = DepthSession::new(rt, alloc, plan, runner)?;
    let outcome = session.report(alloc, events)?;
    write_report(alloc, session.plan(), &outcome, 0, events, sink)?;
    let mut ending = Ending::of(outcome.verdict);
    let mut number = 0;
    for edit in edits {
        session.edit(rt, alloc, edit, runner)?;
        number += 1;
        let outcome = session.report(alloc, events)?;
        write_report(alloc, session.plan(), &outcome, number, events, sink)?;
        ending = ending.unless_done(Ending::of(outcome.verdict));
    }
    Ok(last_line(alloc, session.runs(), ending)?)
}

/// Runs the job of a plan and its edits on the lockstep machine, which goes through all clocks again after each edit. It compiles
/// each block once.
fn clock_job<K: Sink>(
    alloc: Global,
    events: bool,
    mut plan: CheckedPlan,
    edits: &[Edit],
    sink: &mut K,
) -> Result<Answer, TellFault>
    requires { All (EditFits plan) edits.now }
    ensures rest { IfOk result (λ rest. IsRest (job events plan edits.now) (K.held sink.old) (K.held sink.new) rest) }
    ensures prefix { OnErr result (AppendsPrefix (K.held sink.old) (K.held sink.new) (job events plan edits.now).text) }
    ensures cause { HasCauseOf TellFault.WriteFault (K.faults sink.old) (K.faults sink.new) result }
{
    edits_in_order();
    edited_plans_agree();
    reports_without_events();
    plan.fits();
    let codes = codes_of_all(alloc, &plan)?;
    let codes = codes.as_slice();
    let outcome = clock_report(alloc, &plan, codes, events)?;
    write_report(alloc, plan.plan(), &outcome, 0, events, sink)?;
    let mut ending = Ending::of(outcome.verdict);
    let mut count = RunCount::new(outcome.answers);
    let mut number = 0;
    for edit in edits {
        plan.edit(edit);
        number += 1;
        let outcome = clock_report(alloc, &plan, codes, events)?;
        write_report(alloc, plan.plan(), &outcome, number, events, sink)?;
        ending = ending.unless_done(Ending::of(outcome.verdict));
        count.add(outcome.answers);
    }
    Ok(last_line(alloc, count.runs, ending)?)
}

/// Writes the report of a plan as a whole, with one call of the sink's writing.
fn write_report<K: Sink>(
    alloc: Global,
    plan: &Plan,
    outcome: &Report,
    number: u64,
    events: bool,
    sink: &mut K,
) -> Result<(), TellFault>
    requires fits { FitsEngine plan.now }
    requires report { outcome.now ≡ report_with events plan.now }
    ensures ok { OnOk result (Appends (K.held sink.old) (K.held sink.new)
        (report_text_of plan.now.design (report plan.now) number events)) }
    ensures err { OnErr result (AppendsPrefix (K.held sink.old) (K.held sink.new)
        (report_text_of plan.now.design (report plan.now) number events)) }
    ensures cause { HasCauseOf TellFault.WriteFault (K.faults sink.old) (K.faults sink.new) result }
{
    reports_without_events();
    let mut text = List::new(alloc);
    print_report(&mut text, &plan.design, outcome, number, events)?;
    write_all_of(sink, text.as_slice())?;
    Ok(())
}

/// The line of the runs, which is not written yet, and the ending. `OutOfMemory` where memory ran out.
fn last_line(alloc: Global, runs: u64, ending: Ending) -> Result<Answer, OutOfMemory>
    ensures text { IfOk result (λ rest. rest.text ≡ line (runs_tokens runs)) }
    ensures ending { IfOk result (λ rest. rest.ending ≡ ending) }
{
    let mut text = List::new(alloc);
    print_runs(&mut text, runs)?;
    Ok(Answer { text, ending })
}
