//! A core at which the simulation is over.
ghost use Rattle.std.specs.Prelude.{◌≡◌, ℕ, ◌<◌, length};
ghost use Rattle.sim_core.specs.{FitsEngine, IsFinal, IsAgreed, design, lockstep_run, IsFinished, emitted_of, query_bound, IsSound};
ghost use Rattle.sim_core.specs.{queries_before, theory_of};

use crate::machine::Core;
use engine_view::Engine;
use flow_design::Plan;
use std::marker::Model;

/// A core at which no action is permitted: the simulation is over, and each question about it can be answered.
///
/// It borrows the core, which stays as it is meanwhile. Contracts see of it what they see of the core.
#[derive(Drop)]
pub struct FinalCore<'a> {
    core: &'a Core,
}

impl<'a> Model for FinalCore<'a> {
    ghost use Rattle.std.specs.Coded.{codes};
    ghost use Rattle.flow_design.specs.{plan_code};
    ghost use Rattle.event_timing.specs.{IsFinal};
    ghost use Rattle.timing_bridge.specs.{design};
    ghost use Rattle.sim_core.specs.Views.{CoreView, theory_of};

    ghost Value = { CoreView };

    ghost coded = { Prim.hlevel (codes, plan_code) };

    ghost view = { λ c. c.core.now };

    ghost invariant = { λ c. IsFinal (design c.core.now.plan) c.core.now.plan.cycles (theory_of c.core.now) };
}

impl<'a> FinalCore<'a> {
    /// A core at which no action is permitted, as one whose simulation is over.
    #[inline(always)]
    pub fn new(core: &'a Core) -> FinalCore<'a>
        requires { IsFinal (design core.now.plan) core.now.plan.cycles (theory_of core.now) }
        ensures { result ≡ core.now }
    {
        FinalCore { core }
    }

    /// The core itself. No action is permitted at it.
    #[inline(always)]
    pub fn core(&self) -> &'a Core
        ensures core { result.now ≡ self.now }
        ensures is_final { IsFinal (design result.now.plan) result.now.plan.cycles (theory_of result.now) }
    {
        self.core
    }

    /// The core's plan, with its present depths.
    pub fn plan(&self) -> &'a Plan
        ensures { result.now ≡ self.now.plan }
    {
        self.core().plan()
    }

    /// Tells what a core always keeps: it agrees with its plan. It does nothing.
    #[inline(always)]
    pub fn agrees(&self)
        ensures agreed { IsAgreed (design self.now.plan) (lockstep_run self.now.plan) self.now.plan.cycles (theory_of self.now) }
        ensures fits { FitsEngine self.now.plan }
        ensures sound { IsSound (design self.now.plan) self.now.held }
    {
        self.core().agrees();
    }

    /// How many modules there are.
    pub fn modules(&self) -> u32
        ensures count { result ≡ length self.now.plan.design.modules }
        ensures lanes { result ≡ length self.now.held.lanes }
        ensures agreed { IsAgreed (design self.now.plan) (lockstep_run self.now.plan) self.now.plan.cycles (theory_of self.now) }
        ensures fits { FitsEngine self.now.plan }
        ensures sound { IsSound (design self.now.plan) self.now.held }
    {
        self.core().modules()
    }

    /// What the core holds: the end of the plan's simulation. Each module's number of queries fits 64 bits.
    pub fn engine(&self) -> &'a Engine
        ensures lanes { result.now.graph.lanes ≡ self.now.held.lanes }
        ensures channels { result.now.fifos.channels ≡ self.now.held.channels }
        ensures logs { result.now.log.logs ≡ self.now.held.logs }
        ensures few { (m : ℕ) → queries_before self.now.held m (emitted_of self.now.held m) < query_bound }
        ensures finished { IsFinished self.now.plan self.now.held result.now.ends.items }
    {
        let core = self.core();
        &core.engine
    }
}
