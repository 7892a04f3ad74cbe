//! Whole simulations by single actions, with the modules in several orders.
ghost use Rattle.std.specs.Prelude.{◌≡◌, ◌<◌, length, IfSome};
ghost use Rattle.core_tests.specs.{acting_module, AreOwn};

use crate::actions::{act_same, owner_of};
use clock_machine::clock_run;
use core_actions::{ActFault, Action, act, permits};
use flow_design::{CheckedPlan, Report};
use flow_word::Steps;
use sim_core::Core;
use std::marker::Brand;
use std::process::Abort;
use std::sync::ledger::{Blank, Ledger};
use std::test::Fail;
use worked_sessions::{
    BOTH_ENDS_IN_ONE_MODULE, LATER_STALL, POLLING_LOOP, SessionParts, TIE_ONE_LATER,
    TWO_LEAST_QUERIES, plan_of,
};

/// The order in which modules with a permitted action act.
#[derive(Clone, Copy, Debug, PartialEq, Eq)]
enum Order {
    Last,
    First,
    InTurn,
}

impl Order {
    /// The module that is asked at this place of the order, of so many modules, after the module `before` has acted.
    fn asked(self, place: u32, modules: u32, before: u32) -> u32
        requires { place < modules }
        ensures { result < modules }
    {
        match self {
            Order::Last => modules - 1 - place,
            Order::First => place,
            Order::InTurn => ((before as u64 + 1 + place as u64) % modules as u64) as u32,
        }
    }
}

/// A permitted action of this module. `None` where it has none.
fn permitted_of(core: &Core, owner: u32) -> Option<Action>
    requires { owner < length core.now.plan.design.modules }
    ensures { IfSome result (λ action. acting_module action ≡ owner) }
{
    if permits(core, Action::Run(owner)).is_ok() {
        Some(Action::Run(owner))
    } else if permits(core, Action::Assign(owner)).is_ok() {
        Some(Action::Assign(owner))
    } else if permits(core, Action::Answer(owner)).is_ok() {
        Some(Action::Answer(owner))
    } else if permits(core, Action::Earliest(owner)).is_ok() {
        Some(Action::Earliest(owner))
    } else {
        None
    }
}

/// The next permitted action in this order. `None` where no action is permitted.
fn next_action(core: &Core, order: Order, before: u32) -> Option<Action>
    ensures { IfSome result (λ action. acting_module action < length core.now.plan.design.modules) }
{
    let modules = core.modules();
    for place in 0..modules {
        let action = permitted_of(core, order.asked(place, modules, before));
        if action.is_some() {
            return action;
        }
    }
    None
}

/// Tries an action that is not permitted, and asserts that it is refused.
fn try_refused<L: Ledger, R: Abort>(rt: &R, core: &mut Core, action: Action, steps: &mut Steps<L>)
    requires inside { acting_module action < length core.old.plan.design.modules }
    requires own { AreOwn core.old }
    ensures same { core.new ≡ core.old }
{
    if permits(core, action).is_err() {
        let answer = act(core, action, steps);
        let is_refused = matches!(answer, Err(ActFault::NotPermitted(_)));
        assert!(rt; is_refused);
    }
}

/// Tries all actions that are not permitted, and asserts that they are refused.
fn try_all_refused<L: Ledger, R: Abort>(rt: &R, core: &mut Core, steps: &mut Steps<L>)
    requires own { AreOwn core.old }
    ensures same { core.new ≡ core.old }
{
    for owner in 0..core.modules() {
        try_refused(rt, core, Action::Run(owner), steps);
        try_refused(rt, core, Action::Assign(owner), steps);
        try_refused(rt, core, Action::Answer(owner), steps);
        try_refused(rt, core, Action::Earliest(owner), steps);
    }
}

/// Does the next permitted action in this order. Returns the module that acted; `None` where no action is permitted.
fn act_next<L: Ledger, R: Abort>(
    rt: &R,
    core: &mut Core,
    order: Order,
    before: u32,
    steps: &mut Steps<L>,
) -> Option<u32>
    requires own { AreOwn core.old }
    ensures own { AreOwn core.new }
{
    try_all_refused(rt, core, steps);
    let action = next_action(core, order, before)?;
    act_same(rt, core, action, steps);
    Some(owner_of(action))
}

/// Does actions in this order until no action is permitted.
fn act_all<L: Ledger, R: Abort>(rt: &R, core: &mut Core, order: Order, blank: Blank)
    requires name { blank.name ≡ L.name }
    requires parts { blank.parts ≡ L.parts }
    requires one { L.parts ≡ 1 }
    requires own { AreOwn core.old }
{
    let mut steps = Steps::<L>::new(blank);
    let mut before = 0;
    for _ in 0..1_000 {
        match act_next(rt, core, order, before, &mut steps) {
            Some(owner) => before = owner,
            None => return,
        }
    }
}

/// The report of a simulation in this order.
fn report_in<R: AllocGlobal + Abort>(
    rt: &R,
    order: Order,
    plan: CheckedPlan,
) -> Result<Option<Report>, Fail> {
    let mut core = Core::new(rt.alloc(), plan)?;
    act_all::<Brand, R>(rt, &mut core, order, Blank::new(1));
    Ok(core.final_report(rt.alloc(), true)?)
}

/// Asserts that a session that is simulated in this order has the lockstep machine's report.
fn is_reported<R: AllocGlobal + Abort>(
    rt: &R,
    order: Order,
    text: SessionParts,
) -> Result<(), Fail> {
    let plan = plan_of(rt.alloc(), text)?;
    let expected = clock_run(rt.alloc(), &plan)?;
    assert_eq!(rt; report_in(rt, order, plan)?, Some(expected));
    Ok(())
}

#[test]
fn reports_in_three_orders(rt: HostRuntime) -> Result<(), Fail> {
    for order in [Order::Last, Order::First, Order::InTurn] {
        is_reported(&rt, order, TIE_ONE_LATER)?;
        is_reported(&rt, order, TWO_LEAST_QUERIES)?;
        is_reported(&rt, order, LATER_STALL)?;
        is_reported(&rt, order, POLLING_LOOP)?;
        is_reported(&rt, order, BOTH_ENDS_IN_ONE_MODULE)?;
    }
    Ok(())
}
