//! Writing what each FIFO holds, clock by clock.
ghost use Rattle.std.specs.Prelude.{◌≡◌, ◌<◌, ◌++◌, [], length, if◌then◌else◌, IsTrue, OnErr, OnOk};
ghost use Rattle.std.specs.List.{flat_map};
ghost use Rattle.trace_text.specs.{AppendsPrefix, HasCauseOf, IsTold, is_fifo, kind_at, fifos, last_clock, fill_events, further};

use crate::events::{write_change, write_fill};
use flow_word::List;
use port_clocks::FifoWalk;
use report_text::channel_name;
use sim_core::FinalCore;
use sim_io::{Sink, TellFault};

/// Adds the events of each FIFO up to the verdict's clock to the pending text, in order of declaration, and writes it in pieces.
pub(crate) fn write_counters<K: Sink>(
    pending: &mut List<u8>,
    core: &FinalCore<'_>,
    sink: &mut K,
) -> Result<(), TellFault>
    ensures ok { OnOk result (IsTold (K.held sink.old) (K.held sink.new) pending.new
        (pending.old ++ further (flat_map (λ f. fill_events core.now.plan f (last_clock core.now.plan)) (fifos core.now.plan)))) }
    ensures err { OnErr result (AppendsPrefix (K.held sink.old) (K.held sink.new)
        (pending.old ++ further (flat_map (λ f. fill_events core.now.plan f (last_clock core.now.plan)) (fifos core.now.plan)))) }
    ensures cause { HasCauseOf TellFault.WriteFault (K.faults sink.old) (K.faults sink.new) result }
{
    core.agrees();
    let last = core.verdict().clock();
    let count = core.plan().design.channels.len() as u32;
    for channel in 0..count {
        write_channel(pending, core, channel, last, sink)?;
    }
    Ok(())
}

/// Adds the events of a channel up to the verdict's clock to the pending text, if it is a FIFO, and writes it in pieces.
fn write_channel<K: Sink>(
    pending: &mut List<u8>,
    core: &FinalCore<'_>,
    channel: u32,
    last: u64,
    sink: &mut K,
) -> Result<(), TellFault>
    requires channel { channel < length core.now.plan.design.channels }
    requires last { last ≡ last_clock core.now.plan }
    ensures ok { OnOk result (IsTold (K.held sink.old) (K.held sink.new) pending.new
        (pending.old ++ further (if is_fifo (kind_at core.now.plan channel) then fill_events core.now.plan channel last else []))) }
    ensures err { OnErr result (AppendsPrefix (K.held sink.old) (K.held sink.new)
        (pending.old ++ further (if is_fifo (kind_at core.now.plan channel) then fill_events core.now.plan channel last else []))) }
    ensures cause { HasCauseOf TellFault.WriteFault (K.faults sink.old) (K.faults sink.new) result }
{
    let kind = core.plan().design.channels.as_slice()[channel as usize].kind;
    if !kind.is_fifo() {
        return Ok(());
    }
    write_fifo(pending, core, channel, last, sink)
}

/// Adds the events of a FIFO up to the verdict's clock to the pending text, and writes it in pieces: one for clock 0, and one for
/// each clock in which the FIFO holds another number of elements than in the clock before.
fn write_fifo<K: Sink>(
    pending: &mut List<u8>,
    core: &FinalCore<'_>,
    channel: u32,
    last: u64,
    sink: &mut K,
) -> Result<(), TellFault>
    requires channel { channel < length core.now.plan.design.channels }
    requires fifo { IsTrue (is_fifo (kind_at core.now.plan channel)) }
    requires last { last ≡ last_clock core.now.plan }
    ensures ok { OnOk result (IsTold (K.held sink.old) (K.held sink.new) pending.new
        (pending.old ++ further (fill_events core.now.plan channel last))) }
    ensures err { OnErr result (AppendsPrefix (K.held sink.old) (K.held sink.new)
        (pending.old ++ further (fill_events core.now.plan channel last))) }
    ensures cause { HasCauseOf TellFault.WriteFault (K.faults sink.old) (K.faults sink.new) result }
{
    core.agrees();
    let name = channel_name(&core.plan().design, channel);
    let mut walk = FifoWalk::new(core, channel);
    let mut held = walk.fill();
    write_fill(pending, name, 0, held, sink)?;
    while walk.next() < last {
        walk.pass(core);
        let fill = walk.fill();
        write_change(pending, name, walk.clock(), held, fill, sink)?;
        held = fill;
    }
    Ok(())
}
