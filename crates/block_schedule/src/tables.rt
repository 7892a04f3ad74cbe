//! What a schedule is made of.
ghost use Rattle.std.specs.Prelude.{ℕ, ◌≡◌, ◌+◌, ◌-◌, ◌*◌, ◌<◌, ◌≤◌, length, map, slice_index_or, true, All, IfOk, OnOk, IsPermutation};
ghost use Rattle.std.specs.{List.Sorted.IsNonDecreasingBy, List.Sorted.IsStableByKey, List.enumerate_from, Ordering.nat_cmp};
ghost use Rattle.flow_design.specs.declared.limits.TheConstants.{BLOCK_CLOCKS, LIVE_ITERATIONS, OPERATIONS};
ghost use Rattle.block_schedule.specs.{interval, rank, slot_of, ArePhases, IsRange};

use flow_design::limits::LIVE_ITERATIONS;
use flow_design::{Block, BlockKind, Timed};
use flow_word::OutOfMemory;
use std::alloc::Global;

/// An operation in the table of a block.
#[derive(Clone, Copy, Debug, PartialEq)]
pub struct Slot {
    /// The rank of its offset: the offsets of a phase are together, and in a phase the greatest age comes first.
    pub rank: u64,
    /// The number of the operation in its block.
    pub op: u32,
}

/// The local clocks between the starts of two iterations: II of a loop, and LEN of a plain block.
#[inline(always)]
pub fn interval(block: &Block) -> u64
    ensures { result ≡ interval block.now }
{
    match block.kind {
        BlockKind::Plain => block.len,
        BlockKind::Loop { ii, again: _ } => ii,
    }
}

/// The rank of an offset, or of an age.
#[inline(always)]
pub(crate) fn rank(interval: u64, offset: u64) -> u64
    requires some { 1 ≤ interval }
    requires most { interval ≤ BLOCK_CLOCKS }
    requires live { offset < LIVE_ITERATIONS * interval }
    ensures { result ≡ rank interval offset }
{
    if offset < interval {
        offset * LIVE_ITERATIONS + (LIVE_ITERATIONS - 1)
    } else {
        offset % interval * LIVE_ITERATIONS + (LIVE_ITERATIONS - 1 - offset / interval)
    }
}

/// The slot of each operation, in text order.
pub(crate) fn slots_of(
    alloc: Global,
    interval: u64,
    ops: &[Timed],
) -> Result<Vec<Slot>, OutOfMemory>
    requires some { 1 ≤ interval }
    requires most { interval ≤ BLOCK_CLOCKS }
    requires live { All (λ t. t.offset < LIVE_ITERATIONS * interval) ops.now }
    requires few { length ops.now ≤ OPERATIONS }
    ensures { IfOk result (λ slots. slots.items ≡ map (slot_of interval) (enumerate_from 0 ops.now)) }
{
    let mut slots = Vec::with_capacity(alloc, ops.len())?;
    for (number, timed) in ops.iter().enumerate() {
        slots.push(Slot {
            rank: rank(interval, timed.offset),
            op: number as u32,
        })?;
    }
    Ok(slots)
}

/// Sorts the slots by rank. Slots of the same rank stay in order.
pub(crate) fn sort_slots(slots: &mut Vec<Slot>) -> Result<(), OutOfMemory>
    ensures moved { OnOk result (IsPermutation slots.old.items slots.new.items) }
    ensures sorted { OnOk result (IsNonDecreasingBy (λ s. s.rank) slots.new.items) }
    ensures stable { OnOk result (IsStableByKey (λ s. s.rank) nat_cmp slots.old.items slots.new.items) }
{
    slots.sort_by_key(|slot| slot.rank)?;
    Ok(())
}

/// The place of the first of the slots whose rank is not below this one.
pub(crate) fn first_from(slots: &[Slot], rank: u64) -> usize
    requires { IsNonDecreasingBy (λ s. s.rank) slots.now }
    ensures bound { result ≤ length slots.now }
    ensures below { (k : ℕ) (d : Slot) → k < result → (slice_index_or slots.now k d).rank < rank }
    ensures rest { (k : ℕ) (d : Slot) → result ≤ k → k < length slots.now → rank ≤ (slice_index_or slots.now k d).rank }
{
    slots.partition_point(|slot| slot.rank < rank)
}

/// The place of the first slot whose rank is at least `first`, and the place after the last slot whose rank is below `end`. The slots are
/// in order of rank.
#[inline(never)]
pub(crate) fn range_of(slots: &[Slot], first: u64, end: u64) -> (usize, usize)
    requires in_order { IsNonDecreasingBy (λ s. s.rank) slots.now }
    requires rises { first ≤ end }
    ensures { IsRange slots.now first end result.0 result.1 }
{
    (first_from(slots, first), first_from(slots, end))
}

/// Whether the slots from one place on and up to another, which are in order, have ranks that are at least the first and below the end.
#[inline(always)]
pub(crate) fn are_within(slots: &[Slot], from: usize, to: usize, first: u64, end: u64) -> bool
    requires { to ≤ length slots.now }
    ensures first { result ≡ true → from < to → (d : Slot) → first ≤ (slice_index_or slots.now from d).rank }
    ensures last { result ≡ true → from < to → (d : Slot) → (slice_index_or slots.now (to - 1) d).rank < end }
{
    from >= to || (first <= slots[from].rank && slots[to - 1].rank < end)
}

/// Where the slots of each phase stand, for a block with at most eight phases for each operation, and nothing for a longer one.
pub(crate) fn phases_of(
    alloc: Global,
    slots: &[Slot],
    interval: u64,
) -> Result<Vec<(u32, u32)>, OutOfMemory>
    requires in_order { IsNonDecreasingBy (λ s. s.rank) slots.now }
    requires few { length slots.now ≤ OPERATIONS }
    ensures { IfOk result (λ phases. ArePhases slots.now phases.items) }
{
    let mut phases = Vec::new(alloc);
    let count = if interval <= 8 * slots.len() as u64 {
        interval
    } else {
        0
    };
    for phase in 0..count {
        let first = phase * LIVE_ITERATIONS;
        let (from, to) = range_of(slots, first, first + LIVE_ITERATIONS);
        phases.push((from as u32, to as u32))?;
    }
    Ok(phases)
}
