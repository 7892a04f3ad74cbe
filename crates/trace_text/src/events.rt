//! Writing single events of a trace, each on a line of its own.
ghost use Rattle.std.specs.Prelude.{◌≡◌, ◌<◌, ◌≤◌, ◌+◌, ◌++◌, ◌∷◌, ◌==◌, [], not, if◌then◌else◌, codes, map, All, OnErr, OnOk};
ghost use Rattle.trace_text.specs.{AppendsPrefix, HasCauseOf, IsTold, channel_name, Doing, name_event, span_event, fill_event, doing_name};
ghost use Rattle.trace_text.specs.{IsDrawn, further};

use flow_design::Design;
use flow_word::{List, OutOfMemory};
use report_text::{channel_name, push_number, push_token, stall_word};
use sim_io::{Sink, TellFault, write_full};
use timelines::{Doing, Span};

/// Adds the event that names a module's track.
#[tactic(auto, unfolding(crate::specs::Events::name_event))]
pub(crate) fn print_name(text: &mut List<u8>, number: u32, name: &[u8]) -> Result<(), OutOfMemory>
    ensures { OnOk result (text.new ≡ text.old ++ name_event number name.now) }
{
    text.extend_from_slice(b"{\"ph\":\"M\",\"pid\":0,\"tid\":")?;
    push_number(text, number as u64)?;
    text.extend_from_slice(b",\"name\":\"thread_name\",\"args\":{\"name\":\"")?;
    text.extend_from_slice(name)?;
    text.extend_from_slice(b"\"}}")
}

/// Adds the words for what a module does in a span.
fn print_doing(text: &mut List<u8>, design: &Design, doing: Doing) -> Result<(), OutOfMemory>
    requires { IsDrawn design.now doing }
    ensures { OnOk result (text.new ≡ text.old ++ doing_name design.now doing) }
{
    match doing {
        Doing::Moves => text.extend_from_slice(b"moves"),
        Doing::Still(port) => {
            text.extend_from_slice(stall_word(port.side))?;
            push_token(text, channel_name(design, port.channel))
        }
    }
}

/// Adds a comma and the event of a span, in a module's track.
#[tactic(auto, unfolding(crate::specs::Events::span_event))]
fn print_span(
    text: &mut List<u8>,
    design: &Design,
    number: u32,
    span: Span,
) -> Result<(), OutOfMemory>
    requires order { span.first ≤ span.until }
    requires drawn { IsDrawn design.now span.doing }
    ensures { OnOk result (text.new ≡ text.old ++ (codes ",\n" ++ span_event design.now number span)) }
{
    text.extend_from_slice(b",\n")?;
    text.extend_from_slice(b"{\"ph\":\"X\",\"pid\":0,\"tid\":")?;
    push_number(text, number as u64)?;
    text.extend_from_slice(b",\"ts\":")?;
    push_number(text, span.first)?;
    text.extend_from_slice(b",\"dur\":")?;
    push_number(text, span.until - span.first)?;
    text.extend_from_slice(b",\"name\":\"")?;
    print_doing(text, design, span.doing)?;
    text.extend_from_slice(b"\"}")
}

/// Adds the event of a span, in a module's track, to the pending text, and writes the text once it is a piece.
#[tactic(auto, using(sim_io::proofs::Pending::prefix_none))]
fn write_span<K: Sink>(
    pending: &mut List<u8>,
    design: &Design,
    number: u32,
    span: Span,
    sink: &mut K,
) -> Result<(), TellFault>
    requires order { span.first ≤ span.until }
    requires drawn { IsDrawn design.now span.doing }
    ensures ok { OnOk result (IsTold (K.held sink.old) (K.held sink.new) pending.new
        (pending.old ++ (codes ",\n" ++ span_event design.now number span))) }
    ensures err { OnErr result (AppendsPrefix (K.held sink.old) (K.held sink.new)
        (pending.old ++ (codes ",\n" ++ span_event design.now number span))) }
    ensures cause { HasCauseOf TellFault.WriteFault (K.faults sink.old) (K.faults sink.new) result }
{
    print_span(pending, design, number, span)?;
    write_full(sink, pending)?;
    Ok(())
}

/// Adds the events of a module's spans to the pending text, and writes it in pieces.
pub(crate) fn write_spans<K: Sink>(
    pending: &mut List<u8>,
    design: &Design,
    number: u32,
    spans: &[Span],
    sink: &mut K,
) -> Result<(), TellFault>
    requires order { All (λ s. s.first ≤ s.until) spans.now }
    requires drawn { All (λ s. IsDrawn design.now s.doing) spans.now }
    ensures ok { OnOk result (IsTold (K.held sink.old) (K.held sink.new) pending.new
        (pending.old ++ further (map (span_event design.now number) spans.now))) }
    ensures err { OnErr result (AppendsPrefix (K.held sink.old) (K.held sink.new)
        (pending.old ++ further (map (span_event design.now number) spans.now))) }
    ensures cause { HasCauseOf TellFault.WriteFault (K.faults sink.old) (K.faults sink.new) result }
{
    for span in spans {
        write_span(pending, design, number, *span, sink)?;
    }
    Ok(())
}

/// Adds a comma and the event that says what a FIFO holds from a clock on.
#[tactic(auto, unfolding(crate::specs::Events::fill_event))]
fn print_fill(text: &mut List<u8>, name: &[u8], clock: u64, fill: u64) -> Result<(), OutOfMemory>
    ensures { OnOk result (text.new ≡ text.old ++ (codes ",\n" ++ fill_event name.now clock fill)) }
{
    text.extend_from_slice(b",\n")?;
    text.extend_from_slice(b"{\"ph\":\"C\",\"pid\":0,\"ts\":")?;
    push_number(text, clock)?;
    text.extend_from_slice(b",\"name\":\"")?;
    text.extend_from_slice(name)?;
    text.extend_from_slice(b"\",\"args\":{\"fill\":")?;
    push_number(text, fill)?;
    text.extend_from_slice(b"}}")
}

/// Adds a comma and the event that says what a FIFO holds from a clock on to the pending text, and writes the text once it is a
/// piece.
#[tactic(auto, using(sim_io::proofs::Pending::prefix_none))]
pub(crate) fn write_fill<K: Sink>(
    pending: &mut List<u8>,
    name: &[u8],
    clock: u64,
    fill: u64,
    sink: &mut K,
) -> Result<(), TellFault>
    ensures ok { OnOk result (IsTold (K.held sink.old) (K.held sink.new) pending.new
        (pending.old ++ (codes ",\n" ++ fill_event name.now clock fill))) }
    ensures err { OnErr result (AppendsPrefix (K.held sink.old) (K.held sink.new)
        (pending.old ++ (codes ",\n" ++ fill_event name.now clock fill))) }
    ensures cause { HasCauseOf TellFault.WriteFault (K.faults sink.old) (K.faults sink.new) result }
{
    print_fill(pending, name, clock, fill)?;
    write_full(sink, pending)?;
    Ok(())
}

/// Adds the event that says what a FIFO holds from a clock on to the pending text, if it is another number of elements than before,
/// and writes the text once it is a piece.
pub(crate) fn write_change<K: Sink>(
    pending: &mut List<u8>,
    name: &[u8],
    clock: u64,
    before: u64,
    now: u64,
    sink: &mut K,
) -> Result<(), TellFault>
    ensures ok { OnOk result (IsTold (K.held sink.old) (K.held sink.new) pending.new
        (pending.old ++ further (if not (now == before) then fill_event name.now clock now ∷ [] else []))) }
    ensures err { OnErr result (AppendsPrefix (K.held sink.old) (K.held sink.new)
        (pending.old ++ further (if not (now == before) then fill_event name.now clock now ∷ [] else []))) }
    ensures cause { HasCauseOf TellFault.WriteFault (K.faults sink.old) (K.faults sink.new) result }
{
    if now == before {
        return Ok(());
    }
    write_fill(pending, name, clock, now, sink)
}
