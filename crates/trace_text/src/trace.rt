//! The trace of a core's plan.
ghost use Rattle.std.specs.Prelude.{◌≡◌, ◌++◌, ◌<◌, ◌^◌, length, IfOk, OnErr, OnOk};
ghost use Rattle.std.specs.List.{flat_map, range_with_len};
ghost use Rattle.trace_text.specs.{AppendsPrefix, HasCauseOf, IsTold, names_of, span_events, further, joined_lines};
ghost use Rattle.trace_text.specs.TraceText as form;

use crate::events::{print_name, write_spans};
use crate::fills::write_counters;
use flow_design::Design;
use flow_word::{List, OutOfMemory};
use report_text::module_name;
use sim_core::FinalCore;
use sim_io::{Sink, TellFault};
use std::alloc::Global;

/// Writes the trace of a final core's plan in pieces, and answers the part that is not yet written. The trace has each module's
/// spans, and how many elements each FIFO holds in each clock up to the verdict's.
///
/// It takes memory for the spans of one module at a time, and for a piece of the text. After a fault a prefix of the text is
/// written.
pub fn trace_text<K: Sink>(
    alloc: Global,
    core: &FinalCore<'_>,
    sink: &mut K,
) -> Result<List<u8>, TellFault>
    ensures rest { IfOk result (λ rest. IsTold (K.held sink.old) (K.held sink.new) rest (form.trace_text core.now.plan)) }
    ensures prefix { OnErr result (AppendsPrefix (K.held sink.old) (K.held sink.new) (form.trace_text core.now.plan)) }
    ensures cause { HasCauseOf TellFault.WriteFault (K.faults sink.old) (K.faults sink.new) result }
{
    core.agrees();
    let mut pending = List::from_slice(alloc, b"{\"displayTimeUnit\":\"ns\",\"traceEvents\":[")?;
    print_names(&mut pending, &core.plan().design)?;
    write_tracks(alloc, &mut pending, core, sink)?;
    write_counters(&mut pending, core, sink)?;
    pending.extend_from_slice(b"\n]}\n")?;
    Ok(pending)
}

/// Adds the events that name the modules' tracks, with a comma between each two.
fn print_names(text: &mut List<u8>, design: &Design) -> Result<(), OutOfMemory>
    requires { length design.now.modules < 2 ^ 32 }
    ensures { OnOk result (text.new ≡ text.old ++ joined_lines (names_of design.now)) }
{
    let count = design.modules.len() as u32;
    for number in 0..count {
        if number > 0 {
            text.push(b',')?;
        }
        text.push(b'\n')?;
        print_name(text, number, module_name(design, number))?;
    }
    Ok(())
}

/// Adds the events of each module's spans to the pending text, and writes it in pieces.
fn write_tracks<K: Sink>(
    alloc: Global,
    pending: &mut List<u8>,
    core: &FinalCore<'_>,
    sink: &mut K,
) -> Result<(), TellFault>
    ensures ok { OnOk result (IsTold (K.held sink.old) (K.held sink.new) pending.new
        (pending.old ++ further (flat_map (span_events core.now.plan) (range_with_len 0 (length core.now.plan.design.modules))))) }
    ensures err { OnErr result (AppendsPrefix (K.held sink.old) (K.held sink.new)
        (pending.old ++ further (flat_map (span_events core.now.plan) (range_with_len 0 (length core.now.plan.design.modules))))) }
    ensures cause { HasCauseOf TellFault.WriteFault (K.faults sink.old) (K.faults sink.new) result }
{
    let clock = core.verdict().clock();
    for owner in 0..core.modules() {
        let spans = core.spans(alloc, owner, clock)?;
        write_spans(pending, &core.plan().design, owner, spans.as_slice(), sink)?;
    }
    Ok(())
}
