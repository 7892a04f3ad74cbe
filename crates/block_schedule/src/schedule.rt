//! The schedule of a block.
ghost use Rattle.std.specs.Prelude.{ℕ, ◌≡◌, ◌+◌, ◌-◌, ◌*◌, ◌/◌, ◌^◌, ◌≤◌, ◌<◌, if◌then◌else◌, length, map, slice_index_or, None, All, IfOk};
ghost use Rattle.std.specs.Prelude.{IfSome};
ghost use Rattle.std.specs.List.Sorted.{IsNonDecreasingBy};
ghost use Rattle.flow_design.specs.declared.limits.TheConstants.{LIVE_ITERATIONS};
ghost use Rattle.block_schedule.specs.{Block as BlockOf, ages_down, interval, live_count, rank, due_at_ages, placed, slots_in, IsSlotOf};
ghost use Rattle.block_schedule.specs.{KeepsLimits, ArePhases, IsScheduleOf, IsRange, StandsIn, IsNextDue, IsNextPhase, HasNoPhase};

use crate::tables::{
    Slot, are_within, first_from, interval, phases_of, range_of, rank, slots_of, sort_slots,
};
use flow_design::limits::LIVE_ITERATIONS;
use flow_design::{Block, Control};
use flow_word::OutOfMemory;
use std::alloc::Global;

/// Where the slots stand that are at the ages of the live iterations.
#[derive(Clone, Copy, Debug, PartialEq)]
pub struct DueRange {
    /// The rank of the oldest age: a slot's iteration is its rank less this.
    pub oldest: u64,
    /// The place of the first such slot.
    pub from: usize,
    /// The place after the last such slot.
    pub to: usize,
}

/// A block's operations by phase. A local clock has phase p, which is below II, where the newest iteration started p clocks
/// before it, or p and some whole II. What is due in a clock stands together here. The size is that of the operations, however
/// long the block is.
#[derive(Debug)]
pub struct Schedule {
    interval: u64,
    len: u64,
    /// All operations: by phase, in a phase from the greatest age down, and then in text order.
    slots: Vec<Slot>,
    /// For each phase of a short block, from which place on and up to which place its operations stand. Empty for a long block.
    phases: Vec<(u32, u32)>,
}

impl Drop for Schedule {
    fn drop(self) {
        let Schedule {
            interval: _interval,
            len: _len,
            slots: _slots,
            phases: _phases,
        } = self;
    }
}

impl Schedule {
    /// The schedule of a block. The block keeps the limits of II, LEN and its offsets, and that of its number of operations.
    /// `OutOfMemory` where memory ran out.
    pub fn new(alloc: Global, block: &Block) -> Result<Schedule, OutOfMemory>
        requires { KeepsLimits block.now }
        ensures { IfOk result (λ schedule. IsScheduleOf block.now schedule) }
    {
        let interval = interval(block);
        let mut slots = slots_of(alloc, interval, block.ops.as_slice())?;
        sort_slots(&mut slots)?;
        let phases = phases_of(alloc, &slots, interval)?;
        Ok(Schedule {
            interval,
            len: block.len,
            slots,
            phases,
        })
    }

    /// The slots of all operations: by phase, in a phase from the greatest age down, and then in text order.
    pub fn slots(&self) -> &[Slot]
        ensures slots { result.now ≡ self.now.slots.items }
        ensures inside { (block : BlockOf) → IsScheduleOf block self.now → All (λ t. t.op < length block.ops) result.now }
    {
        self.slots.as_slice()
    }

    /// Where the operations stand that are at the ages of so many live iterations, of which the newest has this age: the oldest
    /// iteration first, then in text order.
    #[inline(always)]
    pub fn due(&self, age: u64, live: u64) -> DueRange
        requires { (block : BlockOf) × (IsScheduleOf block self.now × (age + (live - 1) * interval block < block.len)) }
        ensures rises { result.from ≤ result.to }
        ensures bound { result.to ≤ length self.now.slots.items }
        ensures places { (block : BlockOf) → IsScheduleOf block self.now
            → map (placed result.oldest) (slots_in self.now result) ≡ due_at_ages block (ages_down (interval block) age live) }
        ensures inside { (block : BlockOf) → IsScheduleOf block self.now
            → All (IsSlotOf block result.oldest live) (slots_in self.now result) }
    {
        let end = rank(self.interval, age) + 1;
        let (from, to) = self.range(end - live, end);
        DueRange {
            oldest: end - live,
            from,
            to,
        }
    }

    /// The place of the first slot whose rank is at least `first`, and the place after the last slot whose rank is below `end`.
    #[inline(always)]
    fn range(&self, first: u64, end: u64) -> (usize, usize)
        requires in_order { IsNonDecreasingBy (λ s. s.rank) self.now.slots.items }
        requires phases { ArePhases self.now.slots.items self.now.phases.items }
        requires some { first ≤ end }
        requires one { (phase : ℕ) × ((phase * LIVE_ITERATIONS ≤ first) × (end ≤ phase * LIVE_ITERATIONS + LIVE_ITERATIONS)) }
        ensures { IsRange self.now.slots.items first end result.0 result.1 }
    {
        if let Some(phase) = self.phases.get((first / LIVE_ITERATIONS) as usize) {
            let (from, to) = (phase.0 as usize, phase.1 as usize);
            if are_within(&self.slots, from, to, first, end) {
                return (from, to);
            }
        }
        range_of(&self.slots, first, end)
    }

    /// The next local clock with work, from the control's own on: a live iteration has an operation at its age, the loop decides
    /// whether another iteration starts, or the block ends.
    ///
    /// It goes through the operations at most once for each II local clocks up to there, whatever number of iterations is live.
    pub fn next_due(&self, control: &Control) -> u64
        requires { (block : BlockOf) × (IsScheduleOf block self.now × StandsIn block control.now) }
        ensures { (block : BlockOf) → IsScheduleOf block self.now → StandsIn block control.now → IsNextDue block control.now result }
    {
        let turn = self.turn(control);
        let live = self.live_count(control);
        let mut whole = self.whole(control.clock - control.newest);
        let mut start = control.newest + whole * self.interval;
        let mut phase = control.clock - start;
        while start < turn {
            if let Some(next) = self.next_phase(phase, whole, live) {
                return start + next;
            }
            whole += 1;
            start += self.interval;
            phase = 0;
        }
        turn
    }

    /// The local clock at which the loop decides next, or at which the block ends where no further iteration starts.
    fn turn(&self, control: &Control) -> u64
        requires { control.now.newest + self.now.interval + self.now.len < 2 ^ 62 }
        ensures { result ≡ control.now.newest + (if control.now.looping then self.now.interval else self.now.len) }
    {
        control.newest
            + if control.looping {
                self.interval
            } else {
                self.len
            }
    }

    /// How many iterations are live.
    fn live_count(&self, control: &Control) -> u64
        requires interval { 1 ≤ self.now.interval }
        requires started { control.now.newest ≤ control.now.clock }
        requires small { control.now.clock < 2 ^ 60 }
        ensures { (block : BlockOf) → IsScheduleOf block self.now → result ≡ live_count block control.now }
    {
        let age = control.clock - control.newest;
        if age >= self.len {
            return 0;
        }
        let most = control.newest.min(self.len - 1 - age);
        if most < self.interval {
            1
        } else {
            1 + most / self.interval
        }
    }

    /// How many whole II an age has.
    fn whole(&self, age: u64) -> u64
        requires { 1 ≤ self.now.interval }
        ensures { result ≡ age / self.now.interval }
    {
        if age < self.interval {
            0
        } else {
            age / self.interval
        }
    }

    /// The first phase, from this one on, in which one of so many live iterations has an operation, where the newest of them has
    /// been live for so many whole II.
    fn next_phase(&self, phase: u64, whole: u64, live: u64) -> Option<u64>
        requires schedule { (block : BlockOf) × IsScheduleOf block self.now }
        requires small { phase < 2 ^ 50 }
        ensures some { (block : BlockOf) → IsScheduleOf block self.now
            → IfSome result (λ next. IsNextPhase block whole live phase next) }
        ensures none { (block : BlockOf) → IsScheduleOf block self.now → result ≡ None → HasNoPhase block whole live phase }
    {
        for slot in &self.slots[self.place(phase)..] {
            let age = LIVE_ITERATIONS - 1 - slot.rank % LIVE_ITERATIONS;
            if whole <= age && age - whole < live {
                return Some(slot.rank / LIVE_ITERATIONS);
            }
        }
        None
    }

    /// The place of the first operation whose phase is not before this one.
    fn place(&self, phase: u64) -> usize
        requires in_order { IsNonDecreasingBy (λ s. s.rank) self.now.slots.items }
        requires phases { ArePhases self.now.slots.items self.now.phases.items }
        requires small { phase < 2 ^ 50 }
        ensures inside { result ≤ length self.now.slots.items }
        ensures below { (k : ℕ) (d : Slot) → k < result → (slice_index_or self.now.slots.items k d).rank < phase * LIVE_ITERATIONS }
        ensures rest { (k : ℕ) (d : Slot) → result ≤ k → k < length self.now.slots.items
            → phase * LIVE_ITERATIONS ≤ (slice_index_or self.now.slots.items k d).rank }
    {
        match self.phases.get(phase as usize) {
            Some(range) => range.0 as usize,
            None => first_from(&self.slots, phase * LIVE_ITERATIONS),
        }
    }
}
