//! The clocks in which elements were moved, for each side of each channel.
ghost use Rattle.std.specs.Prelude.{◌≡◌, ◌<◌, ◌++◌, ◌∷◌, [], All, IfOk, OnOk, length, replicate, slice_index_or, slice_set};
ghost use Rattle.path_text.specs.{moved_at, AreMoved};

use flow_word::{List, OutOfMemory, Side, Words};
use sim_core::LoggedAccess;
use std::alloc::Global;

/// One entry per channel: the clocks in which elements were moved at one side, in order, read from a log. `OutOfMemory` where
/// memory ran out.
pub(crate) fn moved_clocks(
    alloc: Global,
    channels: usize,
    side: Side,
    log: &[LoggedAccess],
) -> Result<List<Words>, OutOfMemory>
    requires { All (λ a. a.event.channel < channels) log.now }
    ensures { IfOk result (AreMoved side channels log.now) }
{
    let mut clocks = no_clocks(alloc, channels)?;
    for access in log {
        if is_moved(side, access) {
            push_clock(&mut clocks, access.event.channel, access.event.cycle)?;
        }
    }
    Ok(clocks)
}

/// One entry per channel: no clocks yet. `OutOfMemory` where memory ran out.
fn no_clocks(alloc: Global, channels: usize) -> Result<List<Words>, OutOfMemory>
    ensures { IfOk result (λ clocks. clocks ≡ replicate channels []) }
{
    let mut clocks = List::with_room(alloc, channels as u64)?;
    for _at in 0..channels {
        clocks.push(List::new(alloc))?;
    }
    Ok(clocks)
}

/// Whether an access moved an element at this side of its channel.
fn is_moved(side: Side, access: &LoggedAccess) -> bool
    ensures { result ≡ moved_at (record { side = side; channel = access.now.event.channel }) access.now }
{
    access.value.is_some() && access.event.kind.side() == side
}

/// Adds a clock to those of a channel. `OutOfMemory` where memory ran out.
fn push_clock(clocks: &mut List<Words>, channel: u32, clock: u64) -> Result<(), OutOfMemory>
    requires { channel < length clocks.old }
    ensures { OnOk result (clocks.new ≡ slice_set clocks.old channel (slice_index_or clocks.old channel [] ++ clock ∷ [])) }
{
    clocks.as_mut_slice()[channel as usize].push(clock)
}
