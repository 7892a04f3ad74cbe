//! Single actions of a core that are not permitted. The expected causes were worked out from the rules of the actions.
ghost use Rattle.std.specs.Prelude.{◌≡◌};
ghost use Rattle.core_tests.specs.{acting_module, AreOwn};

use core_actions::{ActFault, Action, Cause, act};
use event_graph::Place;
use flow_word::Steps;
use sim_core::{Core, Guard};
use std::marker::Brand;
use std::process::Abort;
use std::sync::ledger::{Blank, Ledger};
use std::test::Fail;
use worked_sessions::{SessionParts, TRY_BEFORE_PUSH, TWO_LEAST_QUERIES, plan_of};

/// Two modules, each with a query that waits for the other's push: the first in clock 0, the second in clock 1.
const ONE_LEAST_QUERY: SessionParts = &[
    TRY_BEFORE_PUSH,
    b"\
module B
reg x 8
reg ok 1
block k 3
at 1 tryread ab x ok
at 2 write ba 1
at 2 write z ok
stop
end
",
];

/// The module that an action is of.
pub fn owner_of(action: Action) -> u32
    ensures { result ≡ acting_module action }
{
    match action {
        Action::Run(owner)
        | Action::Assign(owner)
        | Action::Answer(owner)
        | Action::Earliest(owner) => owner,
    }
}

/// Does an action that is permitted.
pub fn act_same<L: Ledger, R: Abort>(rt: &R, core: &mut Core, action: Action, steps: &mut Steps<L>)
    requires own { AreOwn core.old }
    ensures own { AreOwn core.new }
{
    assert!(rt; owner_of(action) < core.modules());
    let answer = act(core, action, steps);
    assert_eq!(rt; answer, Ok(Guard::Same));
}

/// What a core answers to `tried` after it did the actions `done`, which are permitted.
fn answer_after<L: Ledger, R: AllocGlobal + Abort>(
    rt: &R,
    text: SessionParts,
    done: &[Action],
    tried: Action,
    blank: Blank,
) -> Result<Result<Guard, ActFault>, Fail>
    requires name { blank.name ≡ L.name }
    requires parts { blank.parts ≡ L.parts }
    requires one { L.parts ≡ 1 }
{
    let mut core = Core::new(rt.alloc(), plan_of(rt.alloc(), text)?)?;
    let mut steps = Steps::<L>::new(blank);
    for action in done {
        act_same(rt, &mut core, *action, &mut steps);
    }
    assert!(rt; owner_of(tried) < core.modules());
    let answer = act(&mut core, tried, &mut steps);
    drop(core);
    Ok(answer)
}

/// Why `tried` is not permitted after the actions `done`, which are permitted.
fn cause_after<R: AllocGlobal + Abort>(
    rt: &R,
    text: SessionParts,
    done: &[Action],
    tried: Action,
) -> Result<Cause, Fail> {
    match answer_after::<Brand, R>(rt, text, done, tried, Blank::new(1))? {
        Err(ActFault::NotPermitted(cause)) => Ok(cause),
        Err(ActFault::OutOfMemory) | Ok(_) => panic!(rt; "it is permitted"),
    }
}

#[test]
fn causes_with_two_least_queries(rt: HostRuntime) -> Result<(), Fail> {
    let text = TWO_LEAST_QUERIES;
    let both = [Action::Run(0), Action::Run(1)];
    let first = Place { module: 0, step: 0 };
    assert_eq!(rt;
        cause_after(&rt, text, &[], Action::Earliest(0))?,
        Cause::NoStep(0)
    );
    assert_eq!(rt;
        cause_after(&rt, text, &both[..1], Action::Earliest(0))?,
        Cause::Busy(1)
    );
    assert_eq!(rt;
        cause_after(&rt, text, &both, Action::Run(0))?,
        Cause::Waiting(first, 0)
    );
    assert_eq!(rt;
        cause_after(&rt, text, &both, Action::Assign(0))?,
        Cause::Unsettled(first, 0)
    );
    assert_eq!(rt;
        cause_after(&rt, text, &both, Action::Answer(0))?,
        Cause::Unsettled(first, 0)
    );
    let earliest = [Action::Run(0), Action::Run(1), Action::Earliest(1)];
    assert_eq!(rt;
        cause_after(&rt, text, &earliest, Action::Earliest(0))?,
        Cause::Busy(1)
    );
    assert_eq!(rt;
        cause_after(&rt, ONE_LEAST_QUERY, &both, Action::Earliest(1))?,
        Cause::Later(0, 0)
    );
    Ok(())
}
