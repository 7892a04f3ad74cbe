//! A walk over the clocks of all FIFOs.
ghost use Rattle.std.specs.Prelude.{◌≡◌, ◌+◌, ◌<◌, ◌++◌, IfOk, OnOk, length, map, slice_set};
ghost use Rattle.vcd_wave.specs.{fill, fills, last_clock, changes_between, AreWalks, StandsBy, least_next, change_if, change_of};
ghost use Rattle.vcd_wave.specs.{other_fill};

use flow_word::{List, OutOfMemory};
use port_clocks::FifoWalk;
use sim_core::FinalCore;
use std::alloc::Global;

/// A change: how many elements a FIFO holds from a clock on.
#[derive(Clone, Copy, Debug, PartialEq, Eq)]
pub(crate) struct FillChange {
    /// The number of the FIFO among the FIFOs, counted from 0 in order of declaration.
    pub(crate) fifo: u64,
    /// How many elements the FIFO holds now.
    pub(crate) fill: u64,
}

/// A walk over the clocks of each FIFO of a final core's plan, in order of declaration. All are at clock 0.
pub(crate) fn fifo_walks(alloc: Global, core: &FinalCore<'_>) -> Result<List<FifoWalk>, OutOfMemory>
    ensures { IfOk result (AreWalks core.now.plan 0) }
{
    core.agrees();
    let channels = core.plan().design.channels.as_slice();
    let mut walks = List::new(alloc);
    for (number, channel) in channels.iter().enumerate() {
        if channel.kind.is_fifo() {
            walks.push(FifoWalk::new(core, number as u32))?;
        }
    }
    Ok(walks)
}

/// The clock of the next pop or push of any FIFO. Where there is none, it is the verdict's clock or a later one.
pub(crate) fn next_clock(walks: &[FifoWalk]) -> u64
    ensures { result ≡ least_next walks.now }
{
    let mut least = u64::MAX;
    for walk in walks {
        least = least.min(walk.next());
    }
    least
}

/// Lets all walks go on to the clock right after this one. Nothing may be popped or pushed before this clock. `changes` then has
/// those FIFOs that hold another number of elements than in this clock, in place of what it had.
pub(crate) fn pass_clock(
    core: &FinalCore<'_>,
    walks: &mut List<FifoWalk>,
    clock: u64,
    changes: &mut List<FillChange>,
) -> Result<(), OutOfMemory>
    requires walks { AreWalks core.now.plan clock walks.old }
    requires within { clock < last_clock core.now.plan }
    ensures walks { OnOk result (AreWalks core.now.plan (clock + 1) walks.new) }
    ensures changes { OnOk result (map change_of changes.new
        ≡ changes_between (fills core.now.plan clock) (fills core.now.plan (clock + 1))) }
{
    core.agrees();
    changes.truncate(0);
    for fifo in 0..walks.len() {
        let mut walk = walks.as_slice()[fifo as usize];
        let fill = pass_fifo(core, &mut walk, clock);
        put(walks, fifo, walk);
        push_change(changes, fifo, fill)?;
    }
    Ok(())
}

/// Adds a change, if what a FIFO holds changed.
fn push_change(
    changes: &mut List<FillChange>,
    fifo: u64,
    fill: Option<u64>,
) -> Result<(), OutOfMemory>
    ensures { OnOk result (map change_of changes.new ≡ map change_of changes.old ++ change_if fifo fill) }
{
    match fill {
        Some(fill) => changes.push(FillChange { fifo, fill }),
        None => Ok(()),
    }
}

/// Replaces the walk over a FIFO.
fn put(walks: &mut List<FifoWalk>, fifo: u64, walk: FifoWalk)
    requires { fifo < length walks.old }
    ensures { walks.new ≡ slice_set walks.old fifo walk }
{
    walks.as_mut_slice()[fifo as usize] = walk;
}

/// Lets a walk go on to the clock right after this one. Nothing may be popped or pushed before this clock. The answer is how many
/// elements the FIFO then holds. `None` where it holds as many as before.
fn pass_fifo(core: &FinalCore<'_>, walk: &mut FifoWalk, clock: u64) -> Option<u64>
    requires walk { StandsBy core.now.plan clock walk.old }
    requires within { clock < last_clock core.now.plan }
    ensures walk { StandsBy core.now.plan (clock + 1) walk.new }
    ensures channel { walk.new.channel ≡ walk.old.channel }
    ensures changed { result ≡ other_fill (fill core.now.plan walk.old.channel clock) (fill core.now.plan walk.old.channel (clock + 1)) }
{
    core.agrees();
    if walk.next() != clock {
        return None;
    }
    let before = walk.fill();
    walk.pass(core);
    let now = walk.fill();
    if now == before { None } else { Some(now) }
}
