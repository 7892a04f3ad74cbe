//! The log of a core's plan.
ghost use Rattle.std.specs.Prelude.{◌≡◌, ◌++◌, ◌∷◌, map, All, IfOk, OnErr, OnOk};
ghost use Rattle.std.specs.List.{flat_map};
ghost use Rattle.trace_text.specs.{AppendsPrefix, HasCauseOf, IsTold, line, text_of_lines, log_of, access_tokens, value_tokens, IsOfDesign};
ghost use Rattle.trace_text.specs.LogText as form;

use engine_report::StepWalk;
use flow_design::Design;
use flow_word::{List, OutOfMemory};
use lockstep_defs::reports_name_their_plans;
use report_text::{channel_name, kind_word, module_name, print_verdict, push_token, push_value};
use sim_core::{FinalCore, LoggedAccess};
use sim_io::{Sink, TellFault, write_full};
use std::alloc::Global;

/// Writes the log of a final core's plan in pieces, and answers the part that is not yet written. The log has the verdict, and a
/// line for each access that was done, in the order of the report's events.
///
/// It takes memory for two numbers for each module, for what the accesses of one step gave, and for a piece of the text. After a
/// fault a prefix of the text is written.
#[tactic(auto, using(sim_io::proofs::Pending::prefix_none))]
pub fn log_text<K: Sink>(
    alloc: Global,
    core: &FinalCore<'_>,
    sink: &mut K,
) -> Result<List<u8>, TellFault>
    ensures rest { IfOk result (λ rest. IsTold (K.held sink.old) (K.held sink.new) rest (form.log_text core.now.plan)) }
    ensures prefix { OnErr result (AppendsPrefix (K.held sink.old) (K.held sink.new) (form.log_text core.now.plan)) }
    ensures cause { HasCauseOf TellFault.WriteFault (K.faults sink.old) (K.faults sink.new) result }
{
    let mut pending = List::from_slice(alloc, b"log\n")?;
    print_verdict(&mut pending, core.verdict())?;
    write_steps(alloc, &mut pending, core, sink)?;
    Ok(pending)
}

/// Adds a line for each access of a final core's plan to the pending text, step by step, and writes it in pieces.
fn write_steps<K: Sink>(
    alloc: Global,
    pending: &mut List<u8>,
    core: &FinalCore<'_>,
    sink: &mut K,
) -> Result<(), TellFault>
    ensures ok { OnOk result (IsTold (K.held sink.old) (K.held sink.new) pending.new
        (pending.old ++ text_of_lines (map (access_tokens core.now.plan.design) (log_of core.now.plan)))) }
    ensures err { OnErr result (AppendsPrefix (K.held sink.old) (K.held sink.new)
        (pending.old ++ text_of_lines (map (access_tokens core.now.plan.design) (log_of core.now.plan)))) }
    ensures cause { HasCauseOf TellFault.WriteFault (K.faults sink.old) (K.faults sink.new) result }
{
    reports_name_their_plans();
    let graph = &core.engine().graph;
    graph.stays_sound();
    let mut walk = StepWalk::new(alloc, graph)?;
    let mut log = List::new(alloc);
    while let Some(step) = walk.advance(graph) {
        log.truncate(0);
        core.log_step(&step, &mut log)?;
        write_log(pending, &core.plan().design, log.as_slice(), sink)?;
    }
    Ok(())
}

/// Adds a line for each of these accesses to the pending text, and writes it in pieces.
fn write_log<K: Sink>(
    pending: &mut List<u8>,
    design: &Design,
    log: &[LoggedAccess],
    sink: &mut K,
) -> Result<(), TellFault>
    requires { All (IsOfDesign design.now) log.now }
    ensures ok { OnOk result (IsTold (K.held sink.old) (K.held sink.new) pending.new
        (pending.old ++ text_of_lines (map (access_tokens design.now) log.now))) }
    ensures err { OnErr result (AppendsPrefix (K.held sink.old) (K.held sink.new)
        (pending.old ++ text_of_lines (map (access_tokens design.now) log.now))) }
    ensures cause { HasCauseOf TellFault.WriteFault (K.faults sink.old) (K.faults sink.new) result }
{
    for access in log {
        write_access(pending, design, access, sink)?;
    }
    Ok(())
}

/// Adds the line of an access to the pending text, and writes the text once it is a piece.
#[tactic(auto, using(sim_io::proofs::Pending::prefix_none))]
fn write_access<K: Sink>(
    pending: &mut List<u8>,
    design: &Design,
    access: &LoggedAccess,
    sink: &mut K,
) -> Result<(), TellFault>
    requires { IsOfDesign design.now access.now }
    ensures ok { OnOk result (IsTold (K.held sink.old) (K.held sink.new) pending.new
        (pending.old ++ line (access_tokens design.now access.now))) }
    ensures err { OnErr result (AppendsPrefix (K.held sink.old) (K.held sink.new)
        (pending.old ++ line (access_tokens design.now access.now))) }
    ensures cause { HasCauseOf TellFault.WriteFault (K.faults sink.old) (K.faults sink.new) result }
{
    print_access(pending, design, access)?;
    write_full(sink, pending)?;
    Ok(())
}

/// Adds the line of an access.
#[tactic(auto, using(crate::proofs::LogLines::access_line))]
fn print_access(
    text: &mut List<u8>,
    design: &Design,
    access: &LoggedAccess,
) -> Result<(), OutOfMemory>
    requires { IsOfDesign design.now access.now }
    ensures { OnOk result (text.new ≡ text.old ++ line (access_tokens design.now access.now)) }
{
    text.extend_from_slice(b"access")?;
    push_token(text, module_name(design, access.event.module))?;
    push_token(text, kind_word(access.event.kind))?;
    push_token(text, channel_name(design, access.event.channel))?;
    push_value(text, access.event.cycle)?;
    push_value(text, access.outcome as u64)?;
    push_moved(text, access.value)?;
    text.push(b'\n')
}

/// Adds a space and the value of the element that moved, if one moved.
fn push_moved(text: &mut List<u8>, value: Option<u64>) -> Result<(), OutOfMemory>
    ensures { OnOk result (text.new ≡ text.old ++ flat_map (λ t. 32 ∷ t) (value_tokens value)) }
{
    match value {
        Some(value) => push_value(text, value),
        None => Ok(()),
    }
}
