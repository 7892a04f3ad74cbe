//! The lines of a wave.
ghost use Rattle.std.specs.Prelude.{◌≡◌, ◌∷◌, ◌++◌, map, length, OnOk, OnErr, IfOk};
ghost use Rattle.std.specs.List.{flat_map, enumerate_from};
ghost use Rattle.vcd_wave.specs.{AppendsPrefix, HasCauseOf, IsTold, line, text_of_lines, fifo_names, has_some, instant_of, change_of};
ghost use Rattle.vcd_wave.specs.{fifo_code, var_tokens, time_tokens, change_tokens, header_lines, opening_instant, instant_lines};

use crate::binary::push_binary;
use crate::walk::FillChange;
use flow_design::Channel;
use flow_word::{List, OutOfMemory};
use report_text::{push_number, push_token};
use sim_io::{Sink, TellFault, write_full};

/// Adds a space and the code of the FIFO with this number.
fn push_code(text: &mut List<u8>, fifo: u64) -> Result<(), OutOfMemory>
    ensures { OnOk result (text.new ≡ text.old ++ 32 ∷ fifo_code fifo) }
{
    text.extend_from_slice(b" f")?;
    push_number(text, fifo)
}

/// Adds the line that declares a FIFO.
#[tactic(auto, using(report_text::proofs::LineLemmas::line_of_four))]
fn print_var(text: &mut List<u8>, fifo: u64, name: &[u8]) -> Result<(), OutOfMemory>
    ensures { OnOk result (text.new ≡ text.old ++ line (var_tokens (fifo, name.now))) }
{
    text.extend_from_slice(b"$var wire 32")?;
    push_code(text, fifo)?;
    push_token(text, name)?;
    push_token(text, b"$end")?;
    text.push(b'\n')
}

/// Adds a line for each FIFO among the channels, and answers how many there are.
fn print_vars(text: &mut List<u8>, channels: &[Channel]) -> Result<u64, OutOfMemory>
    ensures text { OnOk result (text.new ≡ text.old ++ text_of_lines (map var_tokens (enumerate_from 0 (fifo_names channels.now)))) }
    ensures count { IfOk result (λ count. count ≡ length (fifo_names channels.now)) }
{
    let mut count = 0;
    for channel in channels {
        if channel.kind.is_fifo() {
            print_var(text, count, channel.name.bytes())?;
            count += 1;
        }
    }
    Ok(count)
}

/// Adds all lines before the first time, and answers how many FIFOs there are. After `OutOfMemory` the text may have part of it.
pub fn print_header(text: &mut List<u8>, channels: &[Channel]) -> Result<u64, OutOfMemory>
    ensures text { OnOk result (text.new ≡ text.old ++ text_of_lines (header_lines (fifo_names channels.now))) }
    ensures count { IfOk result (λ count. count ≡ length (fifo_names channels.now)) }
{
    text.extend_from_slice(b"$timescale 1 ns $end\n$scope module flow $end\n")?;
    let count = print_vars(text, channels)?;
    text.extend_from_slice(b"$upscope $end\n$enddefinitions $end\n")?;
    Ok(count)
}

/// Adds the line of a clock. After `OutOfMemory` the text may have part of it.
pub fn print_time(text: &mut List<u8>, clock: u64) -> Result<(), OutOfMemory>
    ensures { OnOk result (text.new ≡ text.old ++ line (time_tokens clock)) }
{
    text.push(b'#')?;
    push_number(text, clock)?;
    text.push(b'\n')
}

/// Adds the line of a FIFO that holds another number of elements than before.
fn print_change(text: &mut List<u8>, fifo: u64, fill: u64) -> Result<(), OutOfMemory>
    ensures { OnOk result (text.new ≡ text.old ++ line (change_tokens (record { fifo = fifo; fill = fill }))) }
{
    text.push(b'b')?;
    push_binary(text, fill)?;
    push_code(text, fifo)?;
    text.push(b'\n')
}

/// Adds the lines of clock 0, in which all of these FIFOs are empty. After `OutOfMemory` the text may have part of it.
pub fn print_opening(text: &mut List<u8>, count: u64) -> Result<(), OutOfMemory>
    ensures { OnOk result (text.new ≡ text.old ++ text_of_lines (instant_lines (opening_instant count))) }
{
    print_time(text, 0)?;
    for fifo in 0..count {
        print_change(text, fifo, 0)?;
    }
    Ok(())
}

/// Adds the lines of a clock and its changes, if there is a change. Returns whether there is one.
fn print_instant(
    text: &mut List<u8>,
    clock: u64,
    changes: &[FillChange],
) -> Result<bool, OutOfMemory>
    ensures text { OnOk result (text.new
        ≡ text.old ++ text_of_lines (flat_map instant_lines (instant_of clock (map change_of changes.now)))) }
    ensures some { IfOk result (λ some. some ≡ has_some (map change_of changes.now)) }
{
    let some = !changes.is_empty();
    if some {
        print_time(text, clock)?;
        print_changes(text, changes)?;
    }
    Ok(some)
}

/// Adds the lines of changes.
fn print_changes(text: &mut List<u8>, changes: &[FillChange]) -> Result<(), OutOfMemory>
    ensures { OnOk result (text.new ≡ text.old ++ text_of_lines (map change_tokens (map change_of changes.now))) }
{
    for change in changes {
        print_change(text, change.fifo, change.fill)?;
    }
    Ok(())
}

/// Adds the lines of a clock and its changes to the pending text, if there is a change, and writes the text once it is a piece.
/// Returns whether there is a change.
#[tactic(auto, using(sim_io::proofs::Pending::prefix_none))]
pub(crate) fn write_instant<K: Sink>(
    pending: &mut List<u8>,
    clock: u64,
    changes: &[FillChange],
    sink: &mut K,
) -> Result<bool, TellFault>
    ensures ok { OnOk result (IsTold (K.held sink.old) (K.held sink.new) pending.new
        (pending.old ++ text_of_lines (flat_map instant_lines (instant_of clock (map change_of changes.now))))) }
    ensures some { IfOk result (λ some. some ≡ has_some (map change_of changes.now)) }
    ensures err { OnErr result (AppendsPrefix (K.held sink.old) (K.held sink.new)
        (pending.old ++ text_of_lines (flat_map instant_lines (instant_of clock (map change_of changes.now))))) }
    ensures cause { HasCauseOf TellFault.WriteFault (K.faults sink.old) (K.faults sink.new) result }
{
    let some = print_instant(pending, clock, changes)?;
    write_full(sink, pending)?;
    Ok(some)
}
