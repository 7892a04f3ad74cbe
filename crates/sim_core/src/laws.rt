//! The laws of the actions on a core, for any plan `p` that the engine takes and every list of actions.
ghost use Rattle.std.specs.Prelude.{◌≡◌, ℕ, ◌+◌, ◌*◌, ◌<◌, ◌≤◌, List, length};
ghost use Rattle.sim_core.specs.{Plan, ModuleState, FitsEngine, HistoryStep, report, opening_core, Action, ActsAll, IsFinal, IsAgreed};
ghost use Rattle.sim_core.specs.{design, lockstep_run, core_report, core_verdict, AreInOrder, TellsOwnRun};
ghost use Rattle.event_timing.specs.Core.{Core};

use crate::machine::Core as EngineCore;
use timing_bridge::{every_order_agrees, every_report, few_actions};

/// Permitted actions from the opening core on, in any order, lead to a core that agrees with the plan's lockstep run. Where that
/// core is final, the report that is read off it is the plan's. Such a list has at most three actions for each operation that each
/// module may do, and one for each module.
pub fn every_order()
    ensures agrees { (p : Plan) → FitsEngine p → (actions : List Action) (x : Core ModuleState)
        → ActsAll (design p) p.cycles (opening_core (design p)) actions x → IsAgreed (design p) (lockstep_run p) p.cycles x }
    ensures reports { (p : Plan) → FitsEngine p → (actions : List Action) (x : Core ModuleState)
        → ActsAll (design p) p.cycles (opening_core (design p)) actions x → IsFinal (design p) p.cycles x
        → (steps : List HistoryStep) → AreInOrder p x steps → report p ≡ core_report p x steps (core_verdict p x) }
    ensures few { (p : Plan) → FitsEngine p → (actions : List Action) (x : Core ModuleState)
        → ActsAll (design p) p.cycles (opening_core (design p)) actions x → length actions ≤ length p.design.modules * (3 * p.ops + 1) }
{
    every_order_agrees();
    every_report();
    few_actions();
}

/// The steps that a core has emitted of a module are the marks of the module's own run on the core's replies, each with its gap in
/// local clocks, its accesses with their ordinals, and the number of its first query. The replies to the first k steps give k + 1
/// of these marks. Where the module's end was emitted, the own run has one more mark after all of them: that it ended or is spent.
pub fn steps_are_own_marks(core: &EngineCore)
    ensures { (i : ℕ) → i < length core.now.plan.design.modules → TellsOwnRun core.now i }
{
    core.agrees();
}
