//! The lanes of all modules.
ghost use Rattle.std.specs.Prelude.{◌≡◌, ℕ, ◌+◌, ◌<◌, ◌≤◌, ◌^◌, length, map, replicate, slice_get, slice_index, All, Some, IfSome, IsOk};
ghost use Rattle.std.specs.Prelude.{IfOk, OnOk, OnErr, slice_set};
ghost use Rattle.std.specs.{Option.ForSome, List.Sorted.IsStrictlyIncreasing};
ghost use Rattle.event_graph.specs.{no_lane, lane_at, last_cycle, cycle_bound, HasStep, IsSoundStep, IsSoundLane, with_step, with_cycle};
ghost use Rattle.event_graph.specs.{with_put, timed_below, if_below, cycle_of as cycle_at, new_step, in_lane, IsFewIfCopied, UsesPlace};
ghost use Rattle.event_graph.specs.{Place};

use crate::lane::RoomyLane;
use crate::view::{LaneStep, NewStep};
use flow_word::{OutOfMemory, Place, Steps};
use std::alloc::Global;
use std::marker::Model;
use std::sync::ledger::Ledger;

/// A lane for each module: the steps that the module made, and the cycles of the first of them.
///
/// A step keeps its place once it is pushed. Only cycles come and go. They are given in order and rise along a lane; one may be
/// replaced as long as they still rise; and they are forgotten from a clock on. Contracts see the lanes, and the room of each lane:
/// how many further steps it takes, whatever memory is left.
pub struct Graph {
    lanes: Vec<RoomyLane>,
}

impl Drop for Graph {
    fn drop(self) {
        let Graph { lanes: _lanes } = self;
    }
}

impl Model for Graph {
    ghost use Rattle.std.specs.Prelude.{◌<◌, ◌^◌, length, All};
    ghost use Rattle.event_graph.specs.{Lanes.IsSoundLane, Roomed.RoomedLanes, Roomed.lanes_of, Roomed.rooms_of};

    ghost Value = { RoomedLanes };

    ghost view = { λ g. record { lanes = lanes_of g.lanes.items; rooms = rooms_of g.lanes.items } };

    ghost invariant = { λ g. All IsSoundLane (lanes_of g.lanes.items) × (length g.lanes.items < 2 ^ 32) };
}

impl Graph {
    /// A graph of `modules` lanes without a step. `OutOfMemory` where memory ran out.
    pub fn new(alloc: Global, modules: u32) -> Result<Graph, OutOfMemory>
        ensures { IfOk result (λ graph. graph.lanes ≡ replicate modules no_lane) }
    {
        let mut lanes = Vec::with_capacity(alloc, modules as usize)?;
        for _ in 0..modules {
            lanes.push(RoomyLane::new(alloc))?;
        }
        Ok(Graph { lanes })
    }

    /// Reserves room for `steps` further steps of a module and their cycles.
    ///
    /// The lanes stay as they are and no room falls, after `OutOfMemory` either.
    pub fn reserve(&mut self, owner: u32, steps: u64) -> Result<(), OutOfMemory>
        requires { owner < length self.old.lanes }
        ensures lanes { self.new.lanes ≡ self.old.lanes }
        ensures room { OnOk result (steps ≤ slice_index self.new.rooms owner) }
        ensures kept { (k : ℕ) → slice_index self.old.rooms k ≤ slice_index self.new.rooms k }
    {
        self.lanes[owner as usize].reserve(steps)
    }

    /// Adds a step at the end of a module's lane, and takes the room for its cycle.
    ///
    /// It succeeds where the lane has room, and then uses one place of it. After `OutOfMemory` the lanes are as they were, and the
    /// step is dropped.
    #[inline(always)]
    pub fn push_step(&mut self, owner: u32, step: NewStep<'_>) -> Result<(), OutOfMemory>
        requires owner { owner < length self.old.lanes }
        requires few { IsFewIfCopied step }
        requires sound { IsSoundStep (new_step step) }
        requires apart { 0 < length (lane_at self.old.lanes owner).steps → 1 ≤ (new_step step).gap }
        ensures ok { OnOk result (self.new.lanes ≡ with_step self.old.lanes owner (new_step step.entry)) }
        ensures err { OnErr result (self.new.lanes ≡ self.old.lanes) }
        ensures succeeds { 0 < slice_index self.old.rooms owner → IsOk result }
        ensures rooms { UsesPlace owner self.old.rooms self.new.rooms }
        ensures sound { All IsSoundLane self.new.lanes }
    {
        self.lanes[owner as usize].push_step(step)
    }

    /// How many modules there are.
    pub fn modules(&self) -> u32
        ensures count { result ≡ length self.now.lanes }
        ensures sound { All IsSoundLane self.now.lanes }
    {
        self.lanes.len() as u32
    }

    /// Tells what a graph always keeps: each lane is sound. It does nothing.
    #[inline(always)]
    pub fn stays_sound(&self)
        ensures { All IsSoundLane self.now.lanes }
    {
        let _lanes = &self.lanes;
    }

    /// How many steps a module made.
    pub fn len(&self, owner: u32) -> u64
        requires { owner < length self.now.lanes }
        ensures count { result ≡ length (lane_at self.now.lanes owner).steps }
        ensures few { result < 2 ^ 32 }
        ensures sound { IsSoundLane (lane_at self.now.lanes owner) }
    {
        self.lanes[owner as usize].len()
    }

    /// How many of a module's steps have a cycle.
    pub fn frontier(&self, owner: u32) -> u64
        requires { owner < length self.now.lanes }
        ensures count { result ≡ length (lane_at self.now.lanes owner).cycles }
        ensures few { result < 2 ^ 32 }
        ensures sound { IsSoundLane (lane_at self.now.lanes owner) }
    {
        self.lanes[owner as usize].frontier()
    }

    /// The step at a place. Each of its accesses is unpacked only when it is asked for.
    #[inline(always)]
    pub fn look(&self, place: Place) -> LaneStep<'_>
        requires { HasStep self.now.lanes place }
        ensures step { slice_get (lane_at self.now.lanes place.module).steps place.step ≡ Some (in_lane result) }
        ensures sound { IsSoundStep (in_lane result) }
        ensures apart { 0 < place.step → 1 ≤ result.gap }
    {
        self.lanes[place.module as usize].look(place.step)
    }

    /// The cycle of the step at a place. `None` where it has none.
    pub fn cycle_of(&self, place: Place) -> Option<u64>
        requires { HasStep self.now.lanes place }
        ensures cycle { result ≡ cycle_at self.now.lanes place }
        ensures below { IfSome result (λ cycle. cycle < cycle_bound) }
    {
        let lane = &self.lanes[place.module as usize];
        lane.cycles().get(place.step as usize).copied()
    }

    /// Gives a cycle to a module's first step without one. No other call gives a step its first cycle.
    pub fn set_cycle<L: Ledger>(&mut self, owner: u32, cycle: u64, steps: &mut Steps<L>)
        requires owner { owner < length self.old.lanes }
        requires waiting { length (lane_at self.old.lanes owner).cycles < length (lane_at self.old.lanes owner).steps }
        requires below { cycle < cycle_bound }
        requires later { ForSome (last_cycle (lane_at self.old.lanes owner)) (λ last. last < cycle) }
        ensures lanes { self.new.lanes ≡ with_cycle self.old.lanes owner cycle }
        ensures kept { (k : ℕ) → slice_index self.old.rooms k ≤ slice_index self.new.rooms k }
        ensures sound { All IsSoundLane self.new.lanes }
        ensures ticks { steps.new ≡ steps.old + 1 }
    {
        self.lanes[owner as usize].set_cycle(cycle, steps);
    }

    /// Replaces the cycle of a step that has one. The cycles of its lane must still rise. All else stays.
    pub fn put<L: Ledger>(&mut self, place: Place, cycle: u64, steps: &mut Steps<L>)
        requires owner { place.module < length self.old.lanes }
        requires there { place.step < length (lane_at self.old.lanes place.module).cycles }
        requires below { cycle < cycle_bound }
        requires rising { IsStrictlyIncreasing (slice_set (lane_at self.old.lanes place.module).cycles place.step cycle) }
        ensures lanes { self.new.lanes ≡ with_put self.old.lanes place cycle }
        ensures rooms { self.new.rooms ≡ self.old.rooms }
        ensures sound { All IsSoundLane self.new.lanes }
        ensures ticks { steps.new ≡ steps.old + 1 }
    {
        self.lanes[place.module as usize].put(place.step, cycle, steps);
    }

    /// The cycles of a module's steps, in order. Its later steps have none.
    pub fn cycles(&self, owner: u32) -> &[u64]
        requires { owner < length self.now.lanes }
        ensures { result.now ≡ (lane_at self.now.lanes owner).cycles }
    {
        self.lanes[owner as usize].cycles()
    }

    /// How many of a module's cycles are below the given one.
    pub fn count_below(&self, owner: u32, cycle: u64) -> u64
        requires { owner < length self.now.lanes }
        ensures count { result ≡ length (timed_below cycle (lane_at self.now.lanes owner)).cycles }
        ensures sound { IsSoundLane (lane_at self.now.lanes owner) }
    {
        self.lanes[owner as usize].count_below(cycle)
    }

    /// Forgets every cycle that is at least the given one. All else stays.
    pub fn forget_from(&mut self, cycle: u64)
        ensures lanes { self.new.lanes ≡ map (timed_below cycle) self.old.lanes }
        ensures each { (place : Place) → cycle_at self.new.lanes place ≡ if_below cycle (cycle_at self.old.lanes place) }
        ensures kept { (k : ℕ) → slice_index self.old.rooms k ≤ slice_index self.new.rooms k }
        ensures sound { All IsSoundLane self.new.lanes }
    {
        for lane in self.lanes.iter_mut() {
            lane.forget_from(cycle);
        }
    }
}
