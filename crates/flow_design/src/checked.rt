//! Plans that obey the static rules.
ghost use Rattle.std.specs.Prelude.{◌≡◌};
ghost use Rattle.flow_design.specs.{with_depth, EditFits, FitsEngine};

use crate::design::{Channel, Design, Module};
use crate::plan::{Edit, Plan, edit_plan};
use flow_word::{OutOfMemory, TryCopy, Words};
use std::alloc::Global;
use std::marker::Model;

/// A plan that obeys each static rule, so that it fits the engine. Contracts see the plan.
#[derive(Debug)]
pub struct CheckedPlan {
    plan: Plan,
}

impl Drop for CheckedPlan {
    fn drop(self) {
        let CheckedPlan { plan: _plan } = self;
    }
}

impl Model for CheckedPlan {
    ghost use Rattle.flow_design.specs.{Codes.plan_code, declared.plan.Plan.Plan as PlanOf, StaticRules.FitsEngine};

    ghost Value = { PlanOf };

    ghost coded = { plan_code };

    ghost view = { λ checked. checked.plan };

    ghost invariant = { λ checked. FitsEngine checked.plan };
}

impl CheckedPlan {
    /// Takes over a plan that obeys each static rule.
    pub fn new(plan: Plan) -> CheckedPlan
        requires { FitsEngine plan }
        ensures { result ≡ plan }
    {
        CheckedPlan { plan }
    }

    /// The plan. It fits the engine.
    #[inline(always)]
    pub fn plan(&self) -> &Plan
        ensures plan { result.now ≡ self.now }
        ensures fits { FitsEngine self.now }
    {
        &self.plan
    }

    /// Tells that the plan fits the engine. It does nothing.
    #[inline(always)]
    pub fn fits(&self)
        ensures { FitsEngine self.now }
    {
        let _plan = &self.plan;
    }

    /// The design of the plan.
    #[inline(always)]
    pub fn design(&self) -> &Design
        ensures { result.now ≡ self.now.design }
    {
        &self.plan.design
    }

    /// The modules of the plan.
    #[inline(always)]
    pub fn modules(&self) -> &[Module]
        ensures { result.now ≡ self.now.design.modules }
    {
        self.plan.design.modules.as_slice()
    }

    /// The channels of the plan.
    #[inline(always)]
    pub fn channels(&self) -> &[Channel]
        ensures { result.now ≡ self.now.design.channels }
    {
        self.plan.design.channels.as_slice()
    }

    /// One entry for each channel: the values of a source, and none for the other channels.
    #[inline(always)]
    pub fn inputs(&self) -> &[Words]
        ensures { result.now ≡ self.now.inputs }
    {
        self.plan.inputs.as_slice()
    }

    /// One entry for each channel: the depth of a FIFO, in elements, and 0 for any other channel.
    #[inline(always)]
    pub fn depths(&self) -> &[u64]
        ensures { result.now ≡ self.now.depths }
    {
        self.plan.depths.as_slice()
    }

    /// The cycle limit, in clocks.
    #[inline(always)]
    pub fn cycles(&self) -> u64
        ensures { result ≡ self.now.cycles }
    {
        self.plan.cycles
    }

    /// How many operations each module may do.
    #[inline(always)]
    pub fn ops(&self) -> u64
        ensures { result ≡ self.now.ops }
    {
        self.plan.ops
    }

    /// Gives up the plan.
    pub fn into_plan(self) -> Plan
        ensures plan { result ≡ self }
        ensures fits { FitsEngine self }
    {
        let CheckedPlan { plan } = self;
        plan
    }

    /// Sets the depth of one FIFO. All else stays.
    pub fn edit(&mut self, edit: &Edit)
        requires { EditFits self.old edit.now }
        ensures { self.new ≡ with_depth self.old edit.now.channel edit.now.depth }
    {
        edit_plan(&mut self.plan, edit);
    }
}

impl TryCopy for CheckedPlan {
    fn try_copy(&self, alloc: Global) -> Result<CheckedPlan, OutOfMemory> {
        Ok(CheckedPlan {
            plan: self.plan.try_copy(alloc)?,
        })
    }
}
