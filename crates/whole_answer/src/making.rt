//! What a task makes of a session that reading and checking accept.
ghost use Rattle.std.specs.Prelude.{◌≡◌, ◌++◌, ◌%◌, ◌^◌, ℕ, List as Items, Option, sum_by, All, IfOk, IsErrOf, OnErr, OnOk};
ghost use Rattle.whole_answer.specs.{AppendsPrefix, HasCauseOf, EditFits, FitsEngine, plan_of, edits_of, line, text_of_lines};
ghost use Rattle.whole_answer.specs.{IsWithinBounds, KeepsScale, job, IsRest, made, with_limits, canonical, summary, summary_lines};
ghost use Rattle.whole_answer.specs.{sum_tokens, first_sink_values};

use crate::advising::advise_depths;
use crate::answer::Answer;
use crate::ending::Ending;
use crate::host::Host;
use crate::job::job;
use crate::ordering::order_modules;
use crate::showing::show;
use crate::sizing::{least_fifos, size_fifos};
use crate::sweeping::sweep_depths;
use cli_words::{Options, ScaledTask, SessionTask, Simulator};
use depth_session::{DepthSession, ThreadRunner};
use flow_design::{CheckedPlan, Edit, Plan, Report, Session};
use flow_print::print_session;
use flow_word::{List, OutOfMemory};
use report_text::{print_numbers, print_runs, print_verdict};
use run_threads::Gate;
use sim_io::{Sink, TellFault};
use std::alloc::Global;
use std::sync::Wait;
use std::thread::Threads;

/// Begins the answer to what is asked of a session that passes the check: it writes a prefix of the answer's text, and returns the
/// rest. A simulation frees the session before the first clock.
#[tactic(auto, using(crate::proofs::Limits::limits_fit))]
pub(crate) fn make<R: Threads + Wait + Sync, G: Gate + Sync, K: Sink>(
    host: &Host<'_, R, G>,
    asked: &ScaledTask,
    session: Session,
    plan: CheckedPlan,
    edits: List<Edit>,
    sink: &mut K,
) -> Result<Answer, TellFault>
    requires sound { IsWithinBounds asked.now.scale asked.now.task }
    requires plan { plan ≡ plan_of asked.now.scale session.statements }
    requires edits { edits ≡ edits_of session.statements }
    requires keeps { KeepsScale asked.now.scale plan }
    requires edits_fit { All (EditFits plan) edits }
    ensures rest { IfOk result (λ rest. IsRest (made asked.now.scale asked.now.task session.statements)
        (K.held sink.old) (K.held sink.new) rest) }
    ensures prefix { OnErr result (AppendsPrefix (K.held sink.old) (K.held sink.new)
        (made asked.now.scale asked.now.task session.statements).text) }
    ensures cause { HasCauseOf TellFault.WriteFault (K.faults sink.old) (K.faults sink.new) result }
{
    plan.fits();
    let Host { rt, alloc, gate } = *host;
    match &asked.task {
        SessionTask::Simulate(by, options) => {
            drop(session);
            simulate(host, *by, options, plan, edits.as_slice(), sink)
        }
        SessionTask::Check => unwritten(print(alloc, &session)),
        SessionTask::Advise(options) => {
            unwritten(advise_depths(rt, alloc, limited(session, edits, plan, options), gate))
        }
        SessionTask::Show(view, options) => {
            let plan = limited(session, edits, plan, options);
            show(host, *view, options, plan, sink)
        }
        SessionTask::Order => unwritten(order_modules(alloc, &plan)),
        SessionTask::Sweep { lo, hi, options } => {
            unwritten(sweep_depths(rt, alloc, *lo, *hi, limited(session, edits, plan, options)))
        }
        SessionTask::Size { slack, options } => {
            let plan = limited(session, edits, plan, options);
            unwritten(size_fifos(rt, alloc, &plan, *slack, gate))
        }
        SessionTask::Least { slack, options } => {
            let plan = limited(session, edits, plan, options);
            unwritten(least_fifos(rt, alloc, &plan, *slack, gate))
        }
    }
}

/// An answer that was made as a whole, as what is left to write: nothing of it is written yet. `OutOfMemory` where memory ran out.
fn unwritten(made: Result<Answer, OutOfMemory>) -> Result<Answer, TellFault>
    ensures rest { (whole : Answer) (held : Option (Items ℕ)) → IfOk made (λ answer. answer ≡ whole)
        → IfOk result (λ rest. IsRest whole held held rest) }
    ensures prefix { (text : Items ℕ) (held : Option (Items ℕ)) → OnErr result (AppendsPrefix held held text) }
    ensures no_fault { IsErrOf result TellFault.WriteFault → ⊥ }
{
    Ok(made?)
}

/// The answer to `check`: the canonical form of a session. `OutOfMemory` where memory ran out.
fn print(alloc: Global, session: &Session) -> Result<Answer, OutOfMemory>
    ensures { IfOk result (λ whole. whole ≡ canonical session.now.statements) }
{
    Ok(Answer {
        text: print_session(alloc, session)?,
        ending: Ending::Done,
    })
}

/// Runs the job of a plan and its edits under the limits of the options.
fn simulate<R: Threads + Wait + Sync, G: Gate + Sync, K: Sink>(
    host: &Host<'_, R, G>,
    by: Simulator,
    options: &Options,
    plan: CheckedPlan,
    edits: &[Edit],
    sink: &mut K,
) -> Result<Answer, TellFault>
    requires fits { FitsEngine (with_limits options.now plan) }
    requires edits_fit { All (EditFits plan) edits.now }
    ensures rest { IfOk result (λ rest. IsRest (job options.now.events (with_limits options.now plan) edits.now)
        (K.held sink.old) (K.held sink.new) rest) }
    ensures prefix { OnErr result (AppendsPrefix (K.held sink.old) (K.held sink.new)
        (job options.now.events (with_limits options.now plan) edits.now).text) }
    ensures cause { HasCauseOf TellFault.WriteFault (K.faults sink.old) (K.faults sink.new) result }
{
    let plan = under_limits(plan, options);
    job(host, by, options.events, plan, edits, sink)
}

/// The plan of a session under the limits of the options. It frees the session and the edits.
fn limited(session: Session, edits: List<Edit>, plan: CheckedPlan, options: &Options) -> CheckedPlan
    requires { FitsEngine (with_limits options.now plan) }
    ensures { result ≡ with_limits options.now plan }
{
    drop(session);
    drop(edits);
    under_limits(plan, options)
}

/// The plan under the limits of the options.
fn under_limits(plan: CheckedPlan, options: &Options) -> CheckedPlan
    requires { FitsEngine (with_limits options.now plan) }
    ensures { result ≡ with_limits options.now plan }
{
    let mut plan = plan.into_plan();
    set_limits(&mut plan, options);
    CheckedPlan::new(plan)
}

/// Replaces the limits of the plan by those of the options that are given.
fn set_limits(plan: &mut Plan, options: &Options)
    ensures { plan.new ≡ with_limits options.now plan.old }
{
    plan.cycles = options.cycles.unwrap_or(plan.cycles);
    plan.ops = options.ops.unwrap_or(plan.ops);
}

/// The summary of a generated session, which is run with a thread for each module. `OutOfMemory` where memory ran out.
#[tactic(auto, unfolding(crate::specs::Made::summary))]
pub(crate) fn summarize<R: Threads + Wait + Sync, G: Gate + Sync>(
    rt: &R,
    alloc: Global,
    seed: u64,
    modules: u64,
    plan: CheckedPlan,
    gate: &G,
) -> Result<Answer, OutOfMemory>
    ensures { IfOk result (λ whole. whole ≡ summary seed modules plan) }
{
    let session = DepthSession::new(rt, alloc, plan, &mut ThreadRunner::new(gate))?;
    let outcome = session.report(alloc, false)?;
    let mut text = List::new(alloc);
    print_summary(&mut text, seed, modules, &outcome)?;
    Ok(Answer {
        text,
        ending: Ending::of(outcome.verdict),
    })
}

/// Adds the lines of a summary. After `OutOfMemory` the text may have some of them.
fn print_summary(
    text: &mut List<u8>,
    seed: u64,
    modules: u64,
    outcome: &Report,
) -> Result<(), OutOfMemory>
    ensures { OnOk result (text.new ≡ text.old ++ text_of_lines (summary_lines seed modules outcome.now)) }
{
    print_numbers(text, b"gen", &[seed, modules])?;
    print_verdict(text, outcome.verdict)?;
    print_sum(text, values_in(outcome))?;
    print_runs(text, 1)
}

/// The values in the first sink of a report; none where it has no sink.
fn values_in(outcome: &Report) -> &[u64]
    ensures { result.now ≡ first_sink_values outcome.now }
{
    match outcome.outputs.as_slice() {
        [] => &[],
        [first, ..] => first.as_slice(),
    }
}

/// Adds the line `sum COUNT TOTAL`. After `OutOfMemory` the text may have part of it.
fn print_sum(text: &mut List<u8>, values: &[u64]) -> Result<(), OutOfMemory>
    ensures { OnOk result (text.new ≡ text.old ++ line (sum_tokens values.now)) }
{
    print_numbers(text, b"sum", &[values.len() as u64, total(values)])
}

/// The sum of the values modulo 2^64.
#[tactic(auto, using(crate::proofs::Sums::one_more))]
fn total(values: &[u64]) -> u64
    ensures { result ≡ sum_by (λ v. v) values.now % 2 ^ 64 }
{
    let mut sum = 0_u64;
    for value in values {
        sum = sum.wrapping_add(*value);
    }
    sum
}
