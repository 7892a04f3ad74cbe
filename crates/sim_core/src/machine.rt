//! The core of a plan.
ghost use Rattle.std.specs.Prelude.{◌≡◌, ℕ, ◌<◌, length};
ghost use Rattle.sim_core.specs.{FitsEngine, IsAgreed, design, lockstep_run, emitted_of, query_bound, IsSound, queries_before, ports_to};
ghost use Rattle.sim_core.specs.{AreOlderRuns, AreReaders, theory_of};

use crate::due::DueModules;
use crate::unread::Unread;
use crate::wiring::{Wiring, ports_of};
use cycle_changes::Changes;
use engine_view::Engine;
use flow_design::{CheckedPlan, Plan};
use flow_word::{List, Port};
use module_interp::ModuleRun;
use query_resolve::CandidateList;
use run_ahead::Mail;
use std::alloc::Global;
use std::marker::Model;

/// A plan with the marks, cycles and outcomes of its modules so far.
///
/// A core always agrees with its plan: each cycle is the clock in which the lockstep machine does the step, and each verified
/// outcome is the one that the query has there. Contracts see the plan, what is held, and for each module whether its run is lent.
pub struct Core {
    pub(crate) plan: Plan,
    pub(crate) engine: Engine,
    /// The run of each module. `None` while it is lent.
    pub(crate) runs: Vec<Option<ModuleRun>>,
    /// The ports of each module, and what else is found once for a plan.
    pub(crate) wiring: Wiring,
    /// For each channel the values that came back unread with the run that pops it.
    pub(crate) unread: List<Unread>,
    /// The modules of which something may be permitted.
    pub(crate) due: DueModules,
    /// What is known of the cycle of each module's first step without one, where it was listed.
    pub(crate) candidates: CandidateList,
    pub(crate) scratch: Scratch,
}

/// Memory that is used again and again. What it holds does not matter.
pub(crate) struct Scratch {
    /// The last mail that came back, whose memory the next mail takes over.
    pub(crate) mail: Mail,
    /// Memory for the few cycles that an edit changes.
    pub(crate) changes: Changes,
}

impl Scratch {
    /// Empty lists. They take no memory.
    pub(crate) fn new(alloc: Global) -> Scratch {
        Scratch {
            mail: Mail::none(alloc),
            changes: Changes::new(alloc),
        }
    }
}

impl Drop for Scratch {
    fn drop(self) {
        let Scratch {
            mail: _mail,
            changes: _changes,
        } = self;
    }
}

impl Drop for Core {
    fn drop(self) {
        let Core {
            plan: _plan,
            engine: _engine,
            runs: _runs,
            wiring: _wiring,
            unread: _unread,
            due: _due,
            candidates: _candidates,
            scratch: _scratch,
        } = self;
    }
}

impl Model for Core {
    ghost use Rattle.std.specs.Coded.{codes};
    ghost use Rattle.flow_design.specs.{plan_code};
    ghost use Rattle.engine_view.specs.{held_in};
    ghost use Rattle.sim_core.specs.{Views.CoreView, Runs.IsStoredCore, Runs.lent_of};

    ghost Value = { CoreView };

    ghost coded = { Prim.hlevel (codes, plan_code) };

    ghost view = { λ c. record {
      plan = c.plan;
      held = held_in c.engine;
      lent = lent_of c.runs.items;
    } };

    ghost invariant = { λ c. IsStoredCore c.plan c.engine c.runs.items c.wiring c.unread c.due c.candidates };
}

impl Core {
    /// The core's plan, with its present depths.
    pub fn plan(&self) -> &Plan
        ensures { result.now ≡ self.now.plan }
    {
        &self.plan
    }

    /// The ports of a module: at each channel its pops before its pushes.
    pub fn ports(&self, owner: u32) -> &[Port]
        requires { owner < length self.now.plan.design.modules }
        ensures { result.now ≡ ports_to self.now.plan owner (length self.now.plan.design.channels) }
    {
        ports_of(&self.wiring.ports, owner)
    }

    /// For each channel the module that pops it, or the number of modules where none does.
    pub fn readers(&self) -> &[u32]
        ensures { AreReaders self.now.plan result.now }
    {
        self.wiring.readers.as_slice()
    }

    /// Tells what a core always keeps: it agrees with its plan. It does nothing.
    #[inline(always)]
    pub fn agrees(&self)
        ensures agreed { IsAgreed (design self.now.plan) (lockstep_run self.now.plan) self.now.plan.cycles (theory_of self.now) }
        ensures fits { FitsEngine self.now.plan }
        ensures sound { IsSound (design self.now.plan) self.now.held }
    {
        let _modules = self.engine.graph.modules();
    }

    /// How many modules there are.
    pub fn modules(&self) -> u32
        ensures count { result ≡ length self.now.plan.design.modules }
        ensures lanes { result ≡ length self.now.held.lanes }
        ensures agreed { IsAgreed (design self.now.plan) (lockstep_run self.now.plan) self.now.plan.cycles (theory_of self.now) }
        ensures fits { FitsEngine self.now.plan }
        ensures sound { IsSound (design self.now.plan) self.now.held }
    {
        self.engine.graph.modules()
    }

    /// What the core holds. Each module's number of queries fits 64 bits.
    pub fn engine(&self) -> &Engine
        ensures lanes { result.now.graph.lanes ≡ self.now.held.lanes }
        ensures channels { result.now.fifos.channels ≡ self.now.held.channels }
        ensures logs { result.now.log.logs ≡ self.now.held.logs }
        ensures few { (m : ℕ) → queries_before self.now.held m (emitted_of self.now.held m) < query_bound }
        ensures fits { FitsEngine self.now.plan }
        ensures sound { IsSound (design self.now.plan) self.now.held }
    {
        &self.engine
    }

    /// The plan and the runs of the modules that are not lent. All else is dropped.
    pub(crate) fn into_plan_and_runs(self) -> (CheckedPlan, Vec<Option<ModuleRun>>)
        ensures plan { result.0 ≡ self.plan }
        ensures older { AreOlderRuns result.0 result.1.items }
    {
        let Core {
            plan,
            engine: _engine,
            runs,
            wiring: _wiring,
            unread: _unread,
            due: _due,
            candidates: _candidates,
            scratch: _scratch,
        } = self;
        (CheckedPlan::new(plan), runs)
    }
}
