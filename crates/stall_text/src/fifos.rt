//! The lines that tell how full each FIFO is.
ghost use Rattle.std.specs.Prelude.{◌≡◌, ◌<◌, ◌≤◌, ◌++◌, [], true, if◌then◌else◌, length, map, All, IfOk, OnOk};
ghost use Rattle.flow_design.specs.declared.limits.TheConstants.{CYCLES, FIFO_DELAY, FIFO_DEPTH};
ghost use Rattle.stall_text.specs.{delay_at, is_fifo, kind_at, line, text_of_lines, fifos, last_clock, AreClocks, fifo_line, fifo_tokens};
ghost use Rattle.stall_text.specs.{IsFilling, shifted, empty_by};
ghost use Rattle.port_clocks.specs.Leads as counts;

use flow_design::ChannelKind;
use flow_word::{List, OutOfMemory, Words};
use port_clocks::{ahead_clocks, fifo_clocks, most_ahead};
use report_text::{channel_name, push_token, push_value};
use sim_core::FinalCore;
use std::alloc::Global;

/// How full a FIFO is in a simulation.
#[derive(Clone, Copy, Debug, PartialEq, Eq)]
struct Filling {
    /// The most elements that the FIFO holds in a clock.
    most: u64,
    /// In how many clocks the FIFO holds no element that can be popped.
    empty: u64,
    /// In how many clocks the FIFO is full.
    full: u64,
}

/// Adds a line for each FIFO of a final core's plan. `clock` is that of the plan's verdict.
pub(crate) fn print_fifos(
    alloc: Global,
    text: &mut List<u8>,
    core: &FinalCore<'_>,
    clock: u64,
) -> Result<(), OutOfMemory>
    requires { clock ≡ last_clock core.now.plan }
    ensures { OnOk result (text.new ≡ text.old ++ text_of_lines (map (fifo_line core.now.plan) (fifos core.now.plan))) }
{
    core.agrees();
    let count = core.plan().design.channels.len() as u32;
    for channel in 0..count {
        print_fifo(alloc, text, core, channel, clock)?;
    }
    Ok(())
}

/// Adds the line of a channel, if it is a FIFO.
fn print_fifo(
    alloc: Global,
    text: &mut List<u8>,
    core: &FinalCore<'_>,
    channel: u32,
    clock: u64,
) -> Result<(), OutOfMemory>
    requires channel { channel < length core.now.plan.design.channels }
    requires clock { clock ≡ last_clock core.now.plan }
    ensures { OnOk result (text.new
        ≡ text.old ++ (if is_fifo (kind_at core.now.plan channel) then line (fifo_line core.now.plan channel) else [])) }
{
    let design = &core.plan().design;
    match design.channels.as_slice()[channel as usize].kind {
        ChannelKind::Fifo { delay, .. } => {
            let filling = filling_at(alloc, core, channel, delay, clock)?;
            print_filling(text, channel_name(design, channel), filling)
        }
        ChannelKind::Source | ChannelKind::Sink => Ok(()),
    }
}

/// How full a FIFO with this delay is in a final core's plan.
fn filling_at(
    alloc: Global,
    core: &FinalCore<'_>,
    channel: u32,
    delay: u64,
    clock: u64,
) -> Result<Filling, OutOfMemory>
    requires channel { channel < length core.now.plan.design.channels }
    requires fifo { is_fifo (kind_at core.now.plan channel) ≡ true }
    requires delay { delay ≡ delay_at core.now.plan channel }
    requires clock { clock ≡ last_clock core.now.plan }
    ensures { IfOk result (IsFilling core.now.plan channel) }
{
    core.agrees();
    let depth = core.plan().depths.as_slice()[channel as usize];
    let clocks = fifo_clocks(alloc, core, channel)?;
    filling_of(
        alloc,
        depth,
        delay,
        clocks.pops.as_slice(),
        clocks.pushes.as_slice(),
        clock,
    )
}

/// How full a FIFO with this depth and delay is in the clocks below `clock`, given the clocks of its pops and pushes.
///
/// It takes memory for the clocks from which on its elements can be popped.
fn filling_of(
    alloc: Global,
    depth: u64,
    delay: u64,
    pops: &[u64],
    pushes: &[u64],
    clock: u64,
) -> Result<Filling, OutOfMemory>
    requires some_depth { 1 ≤ depth }
    requires depth { depth ≤ FIFO_DEPTH }
    requires some_delay { 1 ≤ delay }
    requires delay { delay ≤ FIFO_DELAY }
    requires clock { clock ≤ CYCLES }
    requires pops { AreClocks clock pops.now }
    requires pushes { AreClocks clock pushes.now }
    ensures most { IfOk result (λ filling. filling.most ≡ counts.most_ahead pushes.now pops.now clock) }
    ensures empty { IfOk result (λ filling. filling.empty ≡ empty_by delay clock pops.now pushes.now) }
    ensures full { IfOk result (λ filling. filling.full ≡ counts.ahead_clocks depth pushes.now pops.now clock) }
{
    let ready = later(alloc, pushes, delay - 1)?;
    Ok(Filling {
        most: most_ahead(pushes, pops),
        empty: clock - ahead_clocks(ready.as_slice(), pops, 1, clock),
        full: ahead_clocks(pushes, pops, depth, clock),
    })
}

/// Each of these clocks, `by` clocks later.
fn later(alloc: Global, clocks: &[u64], by: u64) -> Result<Words, OutOfMemory>
    requires by { by ≤ FIFO_DELAY }
    requires clocks { All (λ c. c < CYCLES) clocks.now }
    ensures { IfOk result (λ words. words ≡ shifted by clocks.now) }
{
    let mut words = List::with_room(alloc, clocks.len() as u64)?;
    for clock in clocks {
        words.push(*clock + by)?;
    }
    Ok(words)
}

/// Adds the line of a FIFO.
#[tactic(auto, using(report_text::proofs::LineLemmas::line_of_five))]
fn print_filling(text: &mut List<u8>, name: &[u8], filling: Filling) -> Result<(), OutOfMemory>
    ensures { OnOk result (text.new ≡ text.old ++ line (fifo_tokens name.now filling.most filling.empty filling.full)) }
{
    text.extend_from_slice(b"fifo")?;
    push_token(text, name)?;
    push_value(text, filling.most)?;
    push_value(text, filling.empty)?;
    push_value(text, filling.full)?;
    text.push(b'\n')
}
