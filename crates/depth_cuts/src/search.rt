//! The search among the depths that meet cuts: for each cut that is not met, it raises one channel.
ghost use Rattle.std.specs.Prelude.{◌≡◌, ℕ, ◌<◌, ◌≤◌, true, false, length, slice_index, slice_set, Some, IfOk, OnOk};
ghost use Rattle.flow_design.specs.declared.limits.TheConstants.{FIFO_DEPTH};
ghost use Rattle.depth_cuts.specs.{AreDemands, IsNeed, bits_of as bits_in, IsAt, IsBestSoFar, IsSearched, Improves, swapped as swapped_of};

use crate::cuts::{Demands, Need, first_unmet};
use crate::order::{Choice, bits_of, is_no_worse};
use crate::rises::{least_rise, least_rises};
use flow_word::OutOfMemory;
use std::alloc::Global;

/// Goes through all depths that meet the cuts and are no less than those at hand, and keeps the best. The depths at hand meet the
/// cuts before a place already. It leaves out depths that cannot be better than the best found so far.
///
/// It calls itself no deeper than there are cuts. It takes memory for the depths that it keeps. After `OutOfMemory` the depths at
/// hand may have been raised.
pub(crate) fn search(
    alloc: Global,
    demands: &Demands,
    from: usize,
    at: &mut Choice,
    best: &mut Option<Choice>,
) -> Result<(), OutOfMemory>
    requires demands { AreDemands demands.now }
    requires from { from ≤ length demands.now.cuts }
    requires at { IsAt demands.now from at.old }
    requires kept { IsBestSoFar demands.now best.old }
    ensures at { OnOk result (at.new ≡ at.old) }
    ensures kept { OnOk result (IsBestSoFar demands.now best.new) }
    ensures improves { OnOk result (Improves demands.now.widths best.old best.new) }
    ensures searched { OnOk result (IsSearched demands.now at.old.depths best.new) }
{
    if cannot_improve(alloc, demands, from, at, best)? {
        return Ok(());
    }
    let cuts = demands.cuts.as_slice();
    let next = first_unmet(cuts, from, at.depths.as_slice());
    if next == cuts.len() {
        *best = Some(at.copied(alloc)?);
        return Ok(());
    }
    let needs = cuts[next].needs.as_slice();
    let first = least_rise(demands, needs, at).place;
    for turn in 0..needs.len() {
        let need = needs[swapped(first, turn)];
        let before = raise(demands, &need, at);
        search(alloc, demands, next + 1, at, best)?;
        put_back(need.channel, before, at);
    }
    Ok(())
}

/// Whether the best found so far is no worse than any depths that meet the cuts and are no less than those at hand, which meet the
/// cuts before a place already. `OutOfMemory` where memory ran out.
fn cannot_improve(
    alloc: Global,
    demands: &Demands,
    from: usize,
    at: &Choice,
    best: &Option<Choice>,
) -> Result<bool, OutOfMemory>
    requires demands { AreDemands demands.now }
    requires count { length at.now.depths ≡ length demands.now.floors }
    requires bits { at.now.bits ≡ bits_in demands.now.widths at.now.depths }
    requires kept { IsBestSoFar demands.now best.now }
    ensures yes { IfOk result (λ yes. yes ≡ true → IsSearched demands.now at.now.depths best.now) }
    ensures no { IfOk result (λ yes. yes ≡ false → Improves demands.now.widths best.now (Some at.now)) }
{
    match best {
        Some(found) => {
            if is_no_worse(found, at) {
                return Ok(true);
            }
            let rises = least_rises(alloc, demands, from, at)?;
            Ok(found.bits < at.bits.saturating_add(rises))
        }
        None => Ok(false),
    }
}

/// The number after 0 and `first` have changed places.
fn swapped(first: usize, number: usize) -> usize
    ensures { result ≡ swapped_of first number }
{
    if number == 0 {
        first
    } else if number == first {
        0
    } else {
        number
    }
}

/// The depth of a channel before it was raised, and the bits of the choice then.
#[derive(Clone, Copy)]
struct Before {
    depth: u64,
    bits: u64,
}

/// Raises the channel of a need to the depth that meets it. Returns the depth and the bits from before.
fn raise(demands: &Demands, need: &Need, at: &mut Choice) -> Before
    requires demands { AreDemands demands.now }
    requires need { IsNeed (length at.old.depths) need.now }
    requires count { length at.old.depths ≡ length demands.now.floors }
    requires most { (f : ℕ) → slice_index at.old.depths f ≤ FIFO_DEPTH }
    ensures depths { at.new.depths ≡ slice_set at.old.depths need.now.channel need.now.depth }
    ensures bits { at.new.bits ≡ bits_in demands.now.widths at.new.depths }
    ensures before { result ≡ record { depth = slice_index at.old.depths need.now.channel; bits = at.old.bits } }
{
    let before = Before {
        depth: at.depths.as_slice()[need.channel as usize],
        bits: at.bits,
    };
    at.depths.as_mut_slice()[need.channel as usize] = need.depth;
    at.bits = bits_of(demands.widths.as_slice(), at.depths.as_slice());
    before
}

/// Gives a channel its depth from before, and the choice its bits.
fn put_back(channel: u32, before: Before, at: &mut Choice)
    requires { channel < length at.old.depths }
    ensures depths { at.new.depths ≡ slice_set at.old.depths channel before.depth }
    ensures bits { at.new.bits ≡ before.bits }
{
    at.depths.as_mut_slice()[channel as usize] = before.depth;
    at.bits = before.bits;
}
