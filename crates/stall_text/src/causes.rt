//! The lines of each module's clocks, and of the causes of its stalls.
ghost use Rattle.std.specs.Prelude.{ℕ, ◌≡◌, ◌<◌, ◌≤◌, ◌^◌, ◌+◌, ◌++◌, Bool, length, slice_index, All, IfOk, OnOk};
ghost use Rattle.stall_text.specs.{line, text_of_lines, Doing, is_moving, is_still, is_still_at, span_clocks, spans_clocks, module_tokens};
ghost use Rattle.stall_text.specs.{cause_lines, at_each_side, HasChannelBelow, causes_by};

use flow_design::Design;
use flow_word::{List, OutOfMemory, Side, Words};
use report_text::{channel_name, module_name, push_token, push_value, stall_word};
use std::alloc::Global;
use timelines::{Doing, Span};

/// How a module spends the clocks before the verdict's.
#[derive(Clone, Copy, Debug, PartialEq, Eq)]
pub(crate) struct Clocks {
    /// In how many clocks the module moves.
    pub(crate) moved: u64,
    /// In how many clocks the module stalls.
    pub(crate) still: u64,
}

/// In how many clocks of these spans the module moves, and in how many it stalls.
pub(crate) fn clocks_of(spans: &[Span]) -> Clocks
    requires order { All (λ s. s.first ≤ s.until) spans.now }
    requires few { (test : Doing → Bool) → spans_clocks test spans.now < 2 ^ 64 }
    ensures moved { result.moved ≡ spans_clocks is_moving spans.now }
    ensures still { result.still ≡ spans_clocks is_still spans.now }
{
    let mut moved = 0u64;
    let mut still = 0u64;
    for span in spans {
        let clocks = span.until - span.first;
        match span.doing {
            Doing::Moves => moved += clocks,
            Doing::Still(_) => still += clocks,
        }
    }
    Clocks { moved, still }
}

/// For each channel the number of clocks of these spans in which the module stalls at this side of it.
pub(crate) fn still_clocks(
    alloc: Global,
    channels: usize,
    side: Side,
    spans: &[Span],
) -> Result<Words, OutOfMemory>
    requires order { All (λ s. s.first ≤ s.until) spans.now }
    requires inside { All (λ s. HasChannelBelow channels s.doing) spans.now }
    requires few { (test : Doing → Bool) → spans_clocks test spans.now < 2 ^ 64 }
    ensures count { IfOk result (λ clocks. length clocks ≡ channels) }
    ensures each { IfOk result (λ clocks. (f : ℕ) → f < channels
        → slice_index clocks f ≡ spans_clocks (is_still_at (record { side = side; channel = f })) spans.now) }
{
    let mut clocks = List::zeros(alloc, channels as u64)?;
    for span in spans {
        add_still(clocks.as_mut_slice(), side, *span);
    }
    Ok(clocks)
}

/// Adds the clocks of a span to those of a channel, if the module stalls there at this side.
fn add_still(clocks: &mut [u64], side: Side, span: Span)
    requires order { span.first ≤ span.until }
    requires inside { HasChannelBelow (length clocks.old) span.doing }
    requires few { (f : ℕ) → f < length clocks.old
        → slice_index clocks.old f + span_clocks (is_still_at (record { side = side; channel = f })) span < 2 ^ 64 }
    ensures count { length clocks.new ≡ length clocks.old }
    ensures each { (f : ℕ) → f < length clocks.old
        → slice_index clocks.new f ≡ slice_index clocks.old f + span_clocks (is_still_at (record { side = side; channel = f })) span }
{
    if let Doing::Still(port) = span.doing {
        if port.side == side {
            clocks[port.channel as usize] += span.until - span.first;
        }
    }
}

/// Adds the line of a module's clocks.
#[tactic(auto, using(report_text::proofs::LineLemmas::line_of_four))]
pub(crate) fn print_clocks(
    text: &mut List<u8>,
    name: &[u8],
    clocks: Clocks,
) -> Result<(), OutOfMemory>
    ensures { OnOk result (text.new ≡ text.old ++ line (module_tokens name.now clocks.moved clocks.still)) }
{
    text.extend_from_slice(b"module")?;
    push_token(text, name)?;
    push_value(text, clocks.moved)?;
    push_value(text, clocks.still)?;
    text.push(b'\n')
}

/// Adds the lines of the causes of a module's stalls, given its clocks at each empty channel and at each full one.
pub(crate) fn print_causes(
    text: &mut List<u8>,
    design: &Design,
    owner: u32,
    empty: &[u64],
    full: &[u64],
) -> Result<(), OutOfMemory>
    requires owner { owner < length design.now.modules }
    requires empty { length empty.now ≡ length design.now.channels }
    requires full { length full.now ≡ length design.now.channels }
    requires few { length design.now.channels < 2 ^ 32 }
    ensures { OnOk result (text.new ≡ text.old ++ text_of_lines (at_each_side (length design.now.channels)
        (causes_by design.now owner empty.now full.now))) }
{
    let name = module_name(design, owner);
    let count = design.channels.len() as u32;
    for number in 0..count {
        let channel = channel_name(design, number);
        print_cause(text, name, channel, Side::Pop, empty[number as usize])?;
        print_cause(text, name, channel, Side::Push, full[number as usize])?;
    }
    Ok(())
}

/// Adds the line of a cause, if the module stalls for it in some clock.
fn print_cause(
    text: &mut List<u8>,
    name: &[u8],
    channel: &[u8],
    side: Side,
    clocks: u64,
) -> Result<(), OutOfMemory>
    ensures { OnOk result (text.new ≡ text.old ++ text_of_lines (cause_lines name.now channel.now side clocks)) }
{
    if clocks == 0 {
        return Ok(());
    }
    text.extend_from_slice(b"stall")?;
    push_token(text, name)?;
    push_token(text, stall_word(side))?;
    push_token(text, channel)?;
    push_value(text, clocks)?;
    text.push(b'\n')
}
