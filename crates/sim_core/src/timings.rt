//! Assigns and Answers of one module, one after the other.
ghost use Rattle.std.specs.Prelude.{◌≡◌, ◌+◌, ◌<◌, ◌≤◌, Bool, true, length};
ghost use Rattle.sim_core.specs.{design, IsIdle, is_progress, core_in, ForSomeCore, ForEachCore, IsHeldOf, HasTimedOnce, StretchLeads};
ghost use Rattle.sim_core.specs.{view_in};

use crate::visit::Visit;
use engine_view::{Engine, Timing};
use flow_word::Steps;
use std::sync::ledger::Ledger;

/// What a stretch of Assigns and Answers of a module did, and what is known of the module then.
#[derive(Clone, Copy, Debug, PartialEq, Eq)]
pub(crate) struct TimedSteps {
    /// What was done, as a visit at the module tells it.
    pub(crate) visit: Visit,
    /// How many steps got a cycle: one for each Assign.
    pub(crate) cycles: u32,
    /// How many Answers there were. After each comes the Assign of the same step.
    pub(crate) answers: u32,
    /// Whether it was found that neither an Assign nor an Answer of the module is permitted now.
    pub(crate) idle: bool,
}

/// Does Assigns and Answers of a module as long as they are permitted, until so many steps got a cycle. The limit is the plan's, in
/// clocks.
#[inline(always)]
pub(crate) fn time_many<L: Ledger>(
    engine: &mut Engine,
    owner: u32,
    limit: u64,
    most: u32,
    steps: &mut Steps<L>,
) -> TimedSteps
    requires held { ForSomeCore (λ p runs. IsHeldOf p engine.old runs owner limit) }
    requires some { 0 < most }
    ensures held { ForEachCore (λ p runs. IsHeldOf p engine.old runs owner limit)
        (λ p runs. IsHeldOf p engine.new runs owner limit) }
    ensures leads { ForEachCore (λ p runs. IsHeldOf p engine.old runs owner limit)
        (λ p runs. StretchLeads result.visit result.answers (view_in p engine.old runs) steps.old owner (view_in p engine.new runs)
        steps.new) }
    ensures ends { engine.new.ends ≡ engine.old.ends }
    ensures ticks { steps.new ≡ steps.old + result.cycles }
    ensures answers { result.answers ≤ result.cycles }
    ensures idle { result.idle ≡ true → ForEachCore (λ p runs. IsHeldOf p engine.old runs owner limit)
        (λ p runs. IsIdle (design p) p.cycles (core_in p engine.new) owner) }
{
    let mut cycles = 0;
    let mut answers = 0;
    while cycles < most {
        match time_once(engine, owner, limit, steps) {
            Timing::Assigned(_) => {}
            Timing::Answered(_) => answers += 1,
            Timing::Differs(query) => return TimedSteps {
                visit: acted_or(cycles, answers, Visit::Differs(query)),
                cycles,
                answers,
                idle: false,
            },
            Timing::Nothing => return TimedSteps {
                visit: acted_or(cycles, answers, Visit::Idle),
                cycles,
                answers,
                idle: true,
            },
        }
        cycles += 1;
        if is_timed(engine, owner) {
            return TimedSteps {
                visit: Visit::Acted { again: answers > 0 },
                cycles,
                answers,
                idle: false,
            };
        }
    }
    TimedSteps {
        visit: Visit::Acted { again: true },
        cycles,
        answers,
        idle: false,
    }
}

/// What a visit did that gave `cycles` steps a cycle by Assigns, and did `answers` Answers: `other` where no step got a cycle. After an
/// Answer the module is to be visited again at once.
#[inline(always)]
fn acted_or(cycles: u32, answers: u32, other: Visit) -> Visit
    ensures some { 0 < cycles → (again : Bool) × (result ≡ Visit.Acted again) }
    ensures none { cycles ≡ 0 → result ≡ other }
{
    if cycles == 0 {
        return other;
    }
    Visit::Acted { again: answers > 0 }
}

/// Whether each step of a module has a cycle.
#[inline(always)]
fn is_timed(engine: &Engine, owner: u32) -> bool
    requires { owner < length engine.now.graph.lanes }
{
    engine.graph.frontier(owner) == engine.graph.len(owner)
}

/// Does one Assign or Answer of a module, if one is permitted. After an Answer it does the Assign of the same step too.
#[inline(always)]
fn time_once<L: Ledger>(engine: &mut Engine, owner: u32, limit: u64, steps: &mut Steps<L>) -> Timing
    requires held { ForSomeCore (λ p runs. IsHeldOf p engine.old runs owner limit) }
    ensures held { ForEachCore (λ p runs. IsHeldOf p engine.old runs owner limit)
        (λ p runs. IsHeldOf p engine.new runs owner limit) }
    ensures done { ForEachCore (λ p runs. IsHeldOf p engine.old runs owner limit)
        (λ p runs. HasTimedOnce result (view_in p engine.old runs) steps.old owner (view_in p engine.new runs) steps.new) }
    ensures ends { engine.new.ends ≡ engine.old.ends }
    ensures ticks { is_progress result ≡ true → steps.new ≡ steps.old + 1 }
{
    match engine.time_first(owner, limit, steps) {
        Timing::Answered(cycle) => {
            engine.assign_first(owner, cycle, steps);
            Timing::Answered(cycle)
        }
        Timing::Assigned(cycle) => Timing::Assigned(cycle),
        Timing::Differs(query) => Timing::Differs(query),
        Timing::Nothing => Timing::Nothing,
    }
}
