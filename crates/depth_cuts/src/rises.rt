//! A lower bound on the bits that it takes to meet the cuts that are not met yet.
ghost use Rattle.std.specs.Prelude.{◌≡◌, ℕ, ◌<◌, ◌≤◌, ◌*◌, ◌-◌, true, length, slice_index, slice_set, All, IfOk};
ghost use Rattle.depth_cuts.specs.{AreDemands, AddsBits, ReachesBits};

use crate::cuts::{Demands, Need, is_met};
use crate::order::Choice;
use flow_word::{List, OutOfMemory, Words};
use std::alloc::Global;

/// A lower bound on the bits that it takes to raise the depths at hand so that they meet the cuts from a place on.
///
/// The bits of cuts that share no channel add up: it goes through these cuts, and leaves out each that shares a channel with one
/// counted before. It takes memory for a number of each channel. `OutOfMemory` where memory ran out.
pub(crate) fn least_rises(
    alloc: Global,
    demands: &Demands,
    from: usize,
    at: &Choice,
) -> Result<u64, OutOfMemory>
    requires demands { AreDemands demands.now }
    requires count { length at.now.depths ≡ length demands.now.floors }
    ensures { IfOk result (λ rises. AddsBits demands.now at.now.depths rises) }
{
    let mut used = List::zeros(alloc, demands.floors.len())?;
    let mut rises = 0;
    for place in from..demands.cuts.as_slice().len() {
        rises = with_cut(demands, place, at, &mut used, rises);
    }
    Ok(rises)
}

/// The lower bound with one cut more, whose channels are then marked as used. A cut that is met, or that has a used channel, adds
/// nothing.
fn with_cut(demands: &Demands, place: usize, at: &Choice, used: &mut Words, rises: u64) -> u64
    requires demands { AreDemands demands.now }
    requires count { length at.now.depths ≡ length demands.now.floors }
    requires used { length used.old ≡ length demands.now.floors }
    requires place { place < length demands.now.cuts }
    requires reached { ReachesBits demands.now used.old at.now.depths rises }
    ensures used { length used.new ≡ length used.old }
    ensures reached { ReachesBits demands.now used.new at.now.depths result }
{
    let cut = &demands.cuts.as_slice()[place];
    let needs = cut.needs.as_slice();
    if is_met(cut, at.depths.as_slice()) || !are_unused(needs, used.as_slice()) {
        return rises;
    }
    mark_used(needs, used);
    rises.saturating_add(least_rise(demands, needs, at).bits)
}

/// A need of a cut, and how many more bits it takes to meet it.
#[derive(Clone, Copy)]
pub(crate) struct Rise {
    /// The place of the need in the cut; 0 where the cut has no needs.
    pub(crate) place: usize,
    pub(crate) bits: u64,
}

/// The need that takes the fewest more bits to meet.
pub(crate) fn least_rise(demands: &Demands, needs: &[Need], at: &Choice) -> Rise
    ensures place { 0 < length needs.now → result.place < length needs.now }
    ensures least { All (λ n. result.bits
        ≤ (n.depth - slice_index at.now.depths n.channel) * slice_index demands.now.widths n.channel) needs.now }
{
    let mut least = Rise {
        place: 0,
        bits: u64::MAX,
    };
    for place in 0..needs.len() {
        let bits = rise_of(demands, &needs[place], at);
        if bits < least.bits {
            least = Rise { place, bits };
        }
    }
    least
}

/// How many more bits it takes to meet a need.
fn rise_of(demands: &Demands, need: &Need, at: &Choice) -> u64
    ensures { result ≤ (need.now.depth - slice_index at.now.depths need.now.channel) * slice_index demands.now.widths need.now.channel }
{
    let more = need.depth.saturating_sub(item(&at.depths, need.channel));
    more.saturating_mul(item(&demands.widths, need.channel))
}

/// The item of a channel; 0 where the list has none.
fn item(items: &Words, channel: u32) -> u64
    ensures { result ≡ slice_index items.now channel }
{
    items.as_slice().get(channel as usize).copied().unwrap_or(0)
}

/// Whether no channel of these needs is marked as used.
fn are_unused(needs: &[Need], used: &[u64]) -> bool
    requires { All (λ n. n.channel < length used.now) needs.now }
    ensures { result ≡ true → All (λ n. slice_index used.now n.channel ≡ 0) needs.now }
{
    for place in 0..needs.len() {
        if used[needs[place].channel as usize] != 0 {
            return false;
        }
    }
    true
}

/// Marks the channels of these needs as used.
fn mark_used(needs: &[Need], used: &mut Words)
    requires { All (λ n. n.channel < length used.old) needs.now }
    ensures count { length used.new ≡ length used.old }
    ensures marked { All (λ n. 1 ≤ slice_index used.new n.channel) needs.now }
    ensures kept { (f : ℕ) → slice_index used.new f ≡ 0 → slice_index used.old f ≡ 0 }
{
    for place in 0..needs.len() {
        mark(needs[place].channel, used);
    }
}

/// Marks a channel as used.
fn mark(channel: u32, used: &mut Words)
    requires { channel < length used.old }
    ensures { used.new ≡ slice_set used.old channel 1 }
{
    used.as_mut_slice()[channel as usize] = 1;
}
