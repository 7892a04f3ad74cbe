//! A walk over the steps of a graph.
ghost use Rattle.std.specs.Prelude.{◌≡◌, ◌+◌, ◌<◌, ◌∷◌, ◌++◌, [], length, map, IfOk, IfSome, IsNone, List as Items, Option, ◌^◌, Some, min};
ghost use Rattle.std.specs.Prelude.{slice_index, slice_set};
ghost use Rattle.engine_report.specs.{Plan, Advance, clock_of, history, verdict, design, steps_at, lane_at, core_of, IsFinished};
ghost use Rattle.engine_report.specs.{step_place, IsTimedKey, past_every_cycle, next_cycle, first_cycles, to_give, IsWalk, HasGiven};
ghost use Rattle.engine_report.specs.{FoundIn};
ghost use Rattle.engine_view.specs.Held.{Held};

use crate::events::TimedStep;
use event_graph::{Graph, Place};
use flow_word::{List, OutOfMemory, Words};
use std::alloc::Global;

/// Stands for the cycle of a step that has none: it is later than each cycle.
const NEVER: u64 = u64::MAX;

/// A walk over the steps of a graph that have a cycle, in order of cycles, and within one cycle in order of modules. For each clock
/// in which a step is done it makes a round over the modules.
#[derive(Drop)]
pub struct StepWalk {
    /// How many of each module's steps were given.
    pub(crate) given: Words,
    /// The cycle of each module's next step.
    pub(crate) next: Words,
    /// The clock of this round.
    pub(crate) clock: u64,
    /// The module whose turn it is in this round.
    pub(crate) module: u32,
    /// The least cycle, after this round's clock, of the next steps of those modules that have had their turn.
    pub(crate) later: u64,
}

impl StepWalk {
    /// A walk that has given no step. It takes memory for two numbers for each module. `OutOfMemory` where memory ran out.
    pub fn new(alloc: Global, graph: &Graph) -> Result<StepWalk, OutOfMemory>
        ensures walk { IfOk result (IsWalk graph.now.lanes) }
        ensures given { IfOk result (λ walk. HasGiven graph.now.lanes walk []) }
    {
        Ok(StepWalk {
            module: 0,
            given: List::zeros(alloc, graph.modules() as u64)?,
            next: first_cycles(alloc, graph)?,
            clock: 0,
            later: NEVER,
        })
    }

    /// The next step of the walk. `None` once it has given all steps that have a cycle. It takes no memory.
    ///
    /// Where the engine holds the end of a plan's simulation, all steps together are the plan's history up to its verdict.
    pub fn advance(&mut self, graph: &Graph) -> Option<TimedStep>
        requires { IsWalk graph.now.lanes self.old }
        ensures walk { IsWalk graph.now.lanes self.new }
        ensures timed { IfSome result (IsTimedKey graph.now.lanes) }
        ensures some { IfSome result (λ step. (steps : Items TimedStep) → HasGiven graph.now.lanes self.old steps
            → HasGiven graph.now.lanes self.new (steps ++ step ∷ [])) }
        ensures left { IfSome result (λ step. to_give graph.now.lanes self.new < to_give graph.now.lanes self.old) }
        ensures none { IsNone result → (steps : Items TimedStep) → HasGiven graph.now.lanes self.old steps
            → (p : Plan) (held : Held) (ends : Items (Option Advance)) → IsFinished p held ends → held.lanes ≡ graph.now.lanes
            → steps_at p (core_of (design p) held) (map step_place steps) ≡ history p (clock_of (verdict p)) }
    {
        graph.stays_sound();
        let mut found = self.find(graph);
        while found.is_none() && self.later < NEVER {
            self.begin_round();
            found = self.find(graph);
        }
        found
    }

    /// The next step in this round's clock. `None` where this round has no further one.
    fn find(&mut self, graph: &Graph) -> Option<TimedStep>
        requires { IsWalk graph.now.lanes self.old }
        ensures walk { IsWalk graph.now.lanes self.new }
        ensures clock { self.new.clock ≡ self.old.clock }
        ensures found { FoundIn graph.now.lanes self.old result self.new }
    {
        for owner in self.module..graph.modules() {
            if self.next.as_slice()[owner as usize] == self.clock {
                return Some(self.give(graph, owner));
            }
            self.pass(owner);
        }
        None
    }

    /// Gives the next step of the module whose turn it is.
    fn give(&mut self, graph: &Graph, owner: u32) -> TimedStep
        requires walk { IsWalk graph.now.lanes self.old }
        requires inside { owner < length graph.now.lanes }
        requires few { length graph.now.lanes < 2 ^ 32 }
        requires turn { self.old.module ≡ owner }
        requires due { slice_index self.old.next owner ≡ self.old.clock }
        ensures walk { IsWalk graph.now.lanes self.new }
        ensures clock { self.new.clock ≡ self.old.clock }
        ensures found { FoundIn graph.now.lanes self.old (Some result) self.new }
    {
        graph.stays_sound();
        lane_stays_short(graph, owner);
        let step = self.given.as_slice()[owner as usize];
        let next = cycle_at(graph, owner, step + 1);
        put(&mut self.given, owner, step + 1);
        put(&mut self.next, owner, next);
        self.later = self.later.min(next);
        self.module = owner + 1;
        TimedStep {
            module: owner,
            cycle: self.clock,
            step,
        }
    }

    /// Passes over the module whose turn it is, and which has no step in this round's clock.
    fn pass(&mut self, owner: u32)
        requires turn { self.old.module ≡ owner }
        requires inside { owner < length self.old.next }
        requires few { length self.old.next < 2 ^ 32 }
        ensures given { self.new.given ≡ self.old.given }
        ensures next { self.new.next ≡ self.old.next }
        ensures clock { self.new.clock ≡ self.old.clock }
        ensures turn { self.new.module ≡ owner + 1 }
        ensures later { self.new.later ≡ min self.old.later (slice_index self.old.next owner) }
    {
        self.later = self.later.min(self.next.as_slice()[owner as usize]);
        self.module = owner + 1;
    }

    /// Begins a round for the next clock in which a step is done.
    fn begin_round(&mut self)
        ensures given { self.new.given ≡ self.old.given }
        ensures next { self.new.next ≡ self.old.next }
        ensures clock { self.new.clock ≡ self.old.later }
        ensures turn { self.new.module ≡ 0 }
        ensures later { self.new.later ≡ past_every_cycle }
    {
        self.clock = self.later;
        self.module = 0;
        self.later = NEVER;
    }
}

/// The cycle of each module's first step.
fn first_cycles(alloc: Global, graph: &Graph) -> Result<Words, OutOfMemory>
    ensures { IfOk result (λ cycles. cycles ≡ first_cycles graph.now.lanes) }
{
    let mut cycles = List::with_room(alloc, graph.modules() as u64)?;
    for owner in 0..graph.modules() {
        cycles.push(cycle_at(graph, owner, 0))?;
    }
    Ok(cycles)
}

/// The cycle of a module's step with this number. `NEVER` where it has none.
fn cycle_at(graph: &Graph, owner: u32, step: u64) -> u64
    requires { owner < length graph.now.lanes }
    ensures { result ≡ next_cycle graph.now.lanes owner step }
{
    if graph.frontier(owner) <= step {
        return NEVER;
    }
    let place = Place {
        module: owner,
        step,
    };
    graph.cycle_of(place).unwrap_or(NEVER)
}

/// Tells that a lane has fewer than 2^32 cycles. It does nothing.
#[inline(always)]
fn lane_stays_short(graph: &Graph, owner: u32)
    requires { owner < length graph.now.lanes }
    ensures { length (lane_at graph.now.lanes owner).cycles < 2 ^ 32 }
{
    let _timed = graph.frontier(owner);
}

/// Sets a module's number.
fn put(words: &mut Words, owner: u32, number: u64)
    requires { owner < length words.old }
    ensures { words.new ≡ slice_set words.old owner number }
{
    words.as_mut_slice()[owner as usize] = number;
}
