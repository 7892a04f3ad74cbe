//! The wave of a core's plan.
ghost use Rattle.std.specs.{Prelude.◌≡◌, Prelude.◌++◌, Prelude.IfOk, Prelude.OnErr, Prelude.OnOk, List.flat_map};
ghost use Rattle.vcd_wave.specs.{AppendsPrefix, HasCauseOf, IsTold, text_of_lines, wave_of};
ghost use Rattle.vcd_wave.specs.WaveText as form;

use crate::lines::{print_header, print_opening, print_time, write_instant};
use crate::walk::{fifo_walks, next_clock, pass_clock};
use flow_design::Design;
use flow_word::List;
use sim_core::FinalCore;
use sim_io::{Sink, TellFault};
use std::alloc::Global;

/// Writes the wave of a final core's plan, whose design this is, in pieces, and answers the part that is not yet written. The wave
/// tells how many elements each FIFO holds in each clock up to the verdict's.
///
/// It takes memory for six numbers for each FIFO, for the changes of one clock, and for a piece of the text. After a fault a prefix
/// of the text is written.
pub fn wave_text<K: Sink>(
    alloc: Global,
    design: &Design,
    core: &FinalCore<'_>,
    sink: &mut K,
) -> Result<List<u8>, TellFault>
    requires { design.now ≡ core.now.plan.design }
    ensures rest { IfOk result (λ rest. IsTold (K.held sink.old) (K.held sink.new) rest (form.wave_text (wave_of core.now.plan))) }
    ensures prefix { OnErr result (AppendsPrefix (K.held sink.old) (K.held sink.new) (form.wave_text (wave_of core.now.plan))) }
    ensures cause { HasCauseOf TellFault.WriteFault (K.faults sink.old) (K.faults sink.new) result }
{
    core.agrees();
    let mut pending = List::new(alloc);
    let fifos = print_header(&mut pending, design.channels.as_slice())?;
    print_opening(&mut pending, fifos)?;
    write_later(alloc, &mut pending, core, sink)?;
    Ok(pending)
}

/// Adds the lines after clock 0 to the pending text, and writes it in pieces: of each clock in which some FIFO holds another number
/// of elements than in the clock before, and of the last clock.
fn write_later<K: Sink>(
    alloc: Global,
    pending: &mut List<u8>,
    core: &FinalCore<'_>,
    sink: &mut K,
) -> Result<(), TellFault>
    ensures ok { OnOk result (IsTold (K.held sink.old) (K.held sink.new) pending.new
        (pending.old ++ text_of_lines (flat_map form.instant_lines (wave_of core.now.plan).later))) }
    ensures err { OnErr result (AppendsPrefix (K.held sink.old) (K.held sink.new)
        (pending.old ++ text_of_lines (flat_map form.instant_lines (wave_of core.now.plan).later))) }
    ensures cause { HasCauseOf TellFault.WriteFault (K.faults sink.old) (K.faults sink.new) result }
{
    core.agrees();
    let last = core.verdict().clock();
    let mut walks = fifo_walks(alloc, core)?;
    let mut changes = List::new(alloc);
    let mut told = 0;
    let mut clock = next_clock(walks.as_slice());
    while clock < last {
        pass_clock(core, &mut walks, clock, &mut changes)?;
        if write_instant(pending, clock + 1, changes.as_slice(), sink)? {
            told = clock + 1;
        }
        clock = next_clock(walks.as_slice());
    }
    if told < last {
        print_time(pending, last)?;
    }
    Ok(())
}
