//! The answers to the commands that show a simulation.
ghost use Rattle.std.specs.Prelude.{IfOk, OnErr};
ghost use Rattle.whole_answer.specs.{AppendsPrefix, HasCauseOf, IsTold, IsRest, shown, view_text};

use crate::answer::Answer;
use crate::ending::Ending;
use crate::host::Host;
use cli_words::{Options, ViewName};
use depth_session::{Runner, ThreadRunner};
use flow_design::CheckedPlan;
use flow_word::List;
use path_text::path_text;
use run_threads::Gate;
use sim_core::FinalCore;
use sim_io::{Sink, TellFault};
use stall_text::stalls_text;
use std::alloc::Global;
use std::sync::Wait;
use std::thread::Threads;
use trace_text::{log_text, trace_text};
use vcd_wave::wave_text;

/// Simulates a plan with a thread for each module, and begins the answer with a view of the simulation and the ending of its
/// verdict: it writes a prefix, and returns the rest.
#[tactic(auto, using(sim_io::proofs::Pending::prefix_none))]
pub(crate) fn show<R: Threads + Wait + Sync, G: Gate + Sync, K: Sink>(
    host: &Host<'_, R, G>,
    view: ViewName,
    options: &Options,
    plan: CheckedPlan,
    sink: &mut K,
) -> Result<Answer, TellFault>
    ensures rest { IfOk result (λ rest. IsRest (shown view options.now plan) (K.held sink.old) (K.held sink.new) rest) }
    ensures prefix { OnErr result (AppendsPrefix (K.held sink.old) (K.held sink.new) (shown view options.now plan).text) }
    ensures cause { HasCauseOf TellFault.WriteFault (K.faults sink.old) (K.faults sink.new) result }
{
    let run = ThreadRunner::new(host.gate).run_plan(host.rt, host.alloc, plan)?;
    let core = FinalCore::new(&run);
    let ending = Ending::of(core.verdict());
    let text = view_text(host.alloc, view, options, &core, sink)?;
    Ok(Answer { text, ending })
}

/// The text of a view of a final core's plan, as the options ask for it: `stalls` with polls, `path` with its links. Views that may
/// be long are written piece by piece, and the part that is not written yet is returned.
fn view_text<K: Sink>(
    alloc: Global,
    view: ViewName,
    options: &Options,
    core: &FinalCore<'_>,
    sink: &mut K,
) -> Result<List<u8>, TellFault>
    ensures rest { IfOk result (λ rest. IsTold (K.held sink.old) (K.held sink.new) rest (view_text view options.now core.now.plan)) }
    ensures prefix { OnErr result (AppendsPrefix (K.held sink.old) (K.held sink.new) (view_text view options.now core.now.plan)) }
    ensures cause { HasCauseOf TellFault.WriteFault (K.faults sink.old) (K.faults sink.new) result }
{
    match view {
        ViewName::Wave => wave_text(alloc, &core.plan().design, core, sink),
        ViewName::Log => log_text(alloc, core, sink),
        ViewName::Stalls => Ok(stalls_text(alloc, core, options.polls)?),
        ViewName::Path => Ok(path_text(alloc, core, options.events, options.polls)?),
        ViewName::Trace => trace_text(alloc, core, sink),
    }
}
