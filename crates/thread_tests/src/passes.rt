//! The passes of a hub, which take their turns when a test says so.
ghost use Rattle.std.specs.Prelude.{◌≡◌, IfOk};
ghost use Rattle.thread_tests.specs.{HasNoDeskOut, hub_id, module_of, module_view, IsOfHub, AreResting};

use clock_machine::clock_run;
use flow_design::Report;
use sim_core::{Core, work};
use sim_hub::{Closed, Desk, Hub, ModulePass, PerfAnswer, PerfPass};
use std::alloc::Global;
use std::process::Abort;
use std::sync::Wait;
use std::test::Fail;
use worked_sessions::{SessionParts, plan_of};

/// All passes of a hub, while none has a turn.
#[derive(Drop)]
pub struct Passes {
    pub perf: PerfPass,
    pub modules: Vec<ModulePass>,
}

/// The answer that a pass gets to its turns.
#[derive(Clone, Copy, Debug, PartialEq, Eq)]
pub enum TurnAnswer {
    /// A desk was borrowed, and returned with this many marks.
    Made(u64),
    /// The performance pass did this many actions.
    Did(u64),
    /// Nothing was permitted. The number is that of the entries so far.
    Waits(u64),
    /// The core is final.
    Over,
    /// Memory ran out.
    Short,
}

/// The hub of a session with its passes, and the lockstep machine's report of the session.
pub fn open<R: AllocGlobal>(rt: &R, text: SessionParts) -> Result<(Hub, Passes, Report), Fail>
    ensures resting { IfOk result (λ r. AreResting (hub_id r.0) r.1.perf r.1.modules.items) }
{
    let plan = plan_of(rt.alloc(), text)?;
    let expected = clock_run(rt.alloc(), &plan)?;
    let core = Core::new(rt.alloc(), plan)?;
    let (hub, perf, modules) = Hub::new(rt.alloc(), core)?;
    Ok((hub, Passes { perf, modules }, expected))
}

/// The pass of a module borrows a desk, makes its burst, and returns the desk.
fn drive_once<R: Wait>(
    rt: &R,
    alloc: Global,
    hub: &Hub,
    pass: ModulePass,
) -> (ModulePass, TurnAnswer)
    requires own { IsOfHub hub.now pass }
    requires home { HasNoDeskOut (module_of pass) (module_view pass) }
    ensures own { IsOfHub hub.now result.0 × (module_of result.0 ≡ module_of pass) }
    ensures home { HasNoDeskOut (module_of pass) (module_view result.0) }
{
    let (pass, desk) = hub.borrow_desk(rt, pass);
    match desk {
        Desk::Run(task) => {
            let burst = work(alloc, task);
            let marks = burst.emitted.len();
            let (pass, made) = hub.return_desk(rt, pass, burst);
            (
                pass,
                if made {
                    TurnAnswer::Made(marks)
                } else {
                    TurnAnswer::Short
                },
            )
        }
        Desk::Held(entries) => (pass, TurnAnswer::Waits(entries)),
        Desk::Over => (pass, TurnAnswer::Over),
        Desk::Short => (pass, TurnAnswer::Short),
    }
}

/// The pass of a module takes its turns, while the others rest.
pub fn module_turns<R: AllocGlobal + Wait + Abort>(
    rt: &R,
    hub: &Hub,
    passes: Passes,
    which: usize,
) -> Result<(Passes, TurnAnswer), Fail>
    requires resting { AreResting (hub_id hub.now) passes.perf passes.modules.items }
    ensures resting { IfOk result (λ r. AreResting (hub_id hub.now) r.0.perf r.0.modules.items) }
{
    let Passes { perf, mut modules } = passes;
    assert!(rt; which < modules.len());
    let pass = modules.remove(which);
    let (pass, answer) = drive_once(rt, rt.alloc(), hub, pass);
    modules.insert(which, pass)?;
    Ok((Passes { perf, modules }, answer))
}

/// The performance pass takes a turn, while the others rest.
pub fn perf_turn<R: Wait>(rt: &R, hub: &Hub, passes: Passes) -> (Passes, TurnAnswer)
    requires resting { AreResting (hub_id hub.now) passes.perf passes.modules.items }
    ensures resting { AreResting (hub_id hub.now) result.0.perf result.0.modules.items }
{
    let Passes { perf, modules } = passes;
    let (perf, answer) = hub.perf_turn(rt, perf);
    let answer = match answer {
        PerfAnswer::Did(actions) => TurnAnswer::Did(actions),
        PerfAnswer::Idle(entries) => TurnAnswer::Waits(entries),
        PerfAnswer::Over => TurnAnswer::Over,
        PerfAnswer::Short => TurnAnswer::Short,
    };
    (Passes { perf, modules }, answer)
}

/// The same passes, with those of the modules in the opposite order.
pub fn turned_round(hub: &Hub, passes: Passes) -> Passes
    requires resting { AreResting (hub_id hub.now) passes.perf passes.modules.items }
    ensures resting { AreResting (hub_id hub.now) result.perf result.modules.items }
{
    let Passes { perf, mut modules } = passes;
    modules.reverse();
    Passes { perf, modules }
}

/// Asserts that all is over, and that the hub closes with this report.
pub fn closes_with<R: AllocGlobal + Wait + Abort>(
    rt: &R,
    hub: Hub,
    passes: Passes,
    expected: Report,
) -> Result<(), Fail>
    requires resting { AreResting (hub_id hub) passes.perf passes.modules.items }
{
    let Passes { perf, modules } = passes;
    let (perf, answer) = hub.perf_turn(rt, perf);
    match answer {
        PerfAnswer::Over => {}
        _ => panic!(rt; "not over"),
    }
    match hub.close(perf, modules) {
        Closed::Final(threaded) => {
            assert_eq!(rt;
                threaded.core.final_report(rt.alloc(), true)?,
                Some(expected)
            );
        }
        Closed::Short => panic!(rt; "memory was wanted"),
    }
    Ok(())
}
