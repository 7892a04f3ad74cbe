//! One module's lane, with its room.
ghost use Rattle.std.specs.Prelude.{◌≡◌, ◌+◌, ◌<◌, ◌≤◌, ◌^◌, length, take, filter, nat_lt, slice_get, slice_set, Some, IsOk, OnOk, OnErr};
ghost use Rattle.std.specs.{Option.ForSome, List.Sorted.IsStrictlyIncreasing};
ghost use Rattle.event_graph.specs.{no_lane, last_cycle, cycle_bound, IsSoundStep, IsSoundLane, lane_with_step, lane_with_cycle};
ghost use Rattle.event_graph.specs.{timed_below, put_in, new_step, in_lane, IsFewIfCopied};

use crate::steps::StepList;
use crate::view::{LaneStep, NewStep};
use flow_word::{OutOfMemory, Steps};
use std::alloc::Global;
use std::marker::Model;
use std::sync::ledger::Ledger;

/// A module's steps, and the cycles of the first of them. Room for a step's cycle is taken with the step.
#[derive(Drop)]
pub struct RoomyLane {
    steps: StepList,
    cycles: Vec<u64>,
}

impl Model for RoomyLane {
    ghost use Rattle.std.specs.Prelude.{◌-◌, ◌<◌, ◌≤◌, ◌^◌, length, min, vec_capacity};
    ghost use Rattle.event_graph.specs.{Lanes.IsSoundLane, Roomed.RoomedLane};

    ghost Value = { RoomedLane };

    ghost view = { λ l. record {
      lane = record { steps = l.steps.items; cycles = l.cycles.items };
      room =
          min l.steps.room (vec_capacity l.cycles - length l.steps.items);
    } };

    ghost invariant = { λ l. IsSoundLane (record { steps = l.steps.items; cycles = l.cycles.items })
        × (length l.steps.items ≤ vec_capacity l.cycles) × (length l.steps.items < 2 ^ 32) };
}

impl RoomyLane {
    /// A lane without a step. It takes no memory.
    pub fn new(alloc: Global) -> RoomyLane
        ensures lane { result.lane ≡ no_lane }
        ensures sound { IsSoundLane result.lane }
    {
        RoomyLane {
            steps: StepList::new(alloc),
            cycles: Vec::new(alloc),
        }
    }

    /// How many steps there are.
    pub fn len(&self) -> u64
        ensures count { result ≡ length self.now.lane.steps }
        ensures few { result < 2 ^ 32 }
    {
        self.steps.len()
    }

    /// The step with this number, counted from 0. Each of its accesses is unpacked only when it is asked for.
    #[inline(always)]
    pub fn look(&self, at: u64) -> LaneStep<'_>
        requires { at < length self.now.lane.steps }
        ensures { slice_get self.now.lane.steps at ≡ Some (in_lane result) }
    {
        self.steps.look(at)
    }

    /// How many steps have a cycle.
    pub fn frontier(&self) -> u64
        ensures count { result ≡ length self.now.lane.cycles }
        ensures few { result < 2 ^ 32 }
    {
        self.cycles.len() as u64
    }

    /// The cycles of the first steps, in order. The later steps have none.
    pub fn cycles(&self) -> &[u64]
        ensures { result.now ≡ self.now.lane.cycles }
    {
        self.cycles.as_slice()
    }

    /// Reserves room for `more` further steps and their cycles. The room never falls. The steps and cycles stay. `OutOfMemory` where
    /// memory ran out.
    pub fn reserve(&mut self, more: u64) -> Result<(), OutOfMemory>
        ensures lane { self.new.lane ≡ self.old.lane }
        ensures room { OnOk result (more ≤ self.new.room) }
        ensures kept { self.old.room ≤ self.new.room }
        ensures sound { IsSoundLane self.new.lane }
    {
        self.steps.reserve(more)?;
        let waiting = self.steps.len() as usize - self.cycles.len();
        let wanted = waiting.checked_add(more as usize).ok_or(OutOfMemory)?;
        self.cycles.reserve(wanted)?;
        Ok(())
    }

    /// Adds a step at the end, and takes the room for its cycle. It succeeds where there is room. After `OutOfMemory` the lane is as it
    /// was.
    #[inline(always)]
    pub fn push_step(&mut self, step: NewStep<'_>) -> Result<(), OutOfMemory>
        requires few { IsFewIfCopied step }
        requires sound { IsSoundStep (new_step step) }
        requires apart { 0 < length self.old.lane.steps → 1 ≤ (new_step step).gap }
        ensures ok { OnOk result (self.new.lane ≡ lane_with_step self.old.lane (new_step step.entry)) }
        ensures err { OnErr result (self.new.lane ≡ self.old.lane) }
        ensures succeeds { 0 < self.old.room → IsOk result }
        ensures room { self.old.room ≤ self.new.room + 1 }
        ensures lane_sound { IsSoundLane self.new.lane }
    {
        let waiting = self.steps.len() as usize - self.cycles.len();
        self.cycles.reserve(waiting + 1)?;
        self.steps.push(step)?;
        Ok(())
    }

    /// Gives a cycle to the first step without one.
    pub fn set_cycle<L: Ledger>(&mut self, cycle: u64, steps: &mut Steps<L>)
        requires waiting { length self.old.lane.cycles < length self.old.lane.steps }
        requires below { cycle < cycle_bound }
        requires later { ForSome (last_cycle self.old.lane) (λ last. last < cycle) }
        ensures lane { self.new.lane ≡ lane_with_cycle self.old.lane cycle }
        ensures kept { self.old.room ≤ self.new.room }
        ensures sound { IsSoundLane self.new.lane }
        ensures ticks { steps.new ≡ steps.old + 1 }
    {
        // The room for the cycle was taken with the step.
        let _ = self.cycles.push(cycle);
        steps.tick();
    }

    /// Replaces the cycle of a step that has one. The cycles must still rise.
    pub fn put<L: Ledger>(&mut self, step: u64, cycle: u64, steps: &mut Steps<L>)
        requires there { step < length self.old.lane.cycles }
        requires below { cycle < cycle_bound }
        requires rising { IsStrictlyIncreasing (slice_set self.old.lane.cycles step cycle) }
        ensures lane { self.new.lane ≡ put_in self.old.lane step cycle }
        ensures room { self.new.room ≡ self.old.room }
        ensures sound { IsSoundLane self.new.lane }
        ensures ticks { steps.new ≡ steps.old + 1 }
    {
        self.cycles[step as usize] = cycle;
        steps.tick();
    }

    /// How many cycles are below the given one.
    pub fn count_below(&self, cycle: u64) -> u64
        ensures { result ≡ length (timed_below cycle self.now.lane).cycles }
    {
        count_below(self.cycles.as_slice(), cycle) as u64
    }

    /// Forgets every cycle that is at least the given one.
    pub fn forget_from(&mut self, cycle: u64)
        ensures lane { self.new.lane ≡ timed_below cycle self.old.lane }
        ensures kept { self.old.room ≤ self.new.room }
        ensures sound { IsSoundLane self.new.lane }
    {
        let kept = count_below(self.cycles.as_slice(), cycle);
        self.cycles.truncate(kept);
    }
}

/// How many of these rising cycles are below the given one. They are a prefix of the list.
fn count_below(cycles: &[u64], cycle: u64) -> usize
    requires { IsStrictlyIncreasing cycles.now }
    ensures front { take result cycles.now ≡ filter (λ c. nat_lt c cycle) cycles.now }
    ensures count { result ≡ length (filter (λ c. nat_lt c cycle) cycles.now) }
{
    cycles.partition_point(|c| *c < cycle)
}
