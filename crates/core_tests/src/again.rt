//! Cores that begin again.
use clock_machine::clock_run;
use flow_word::OutOfMemory;
use sim_core::{Core, finish_alone, run_alone};
use std::process::Abort;
use std::test::Fail;
use worked_sessions::{
    BOTH_ENDS_IN_ONE_MODULE, LATER_STALL, POLLING_LOOP, SessionParts, TIE_ONE_LATER,
    TWO_LEAST_QUERIES, plan_of,
};

/// The core of a plan that is simulated once more, from a core that it takes over.
fn simulated_again<R: AllocGlobal>(rt: &R, core: Core) -> Result<Core, OutOfMemory> {
    finish_alone(core.again(rt.alloc())?)
}

/// Asserts that a session is reported as the lockstep machine reports it by a core that takes over the runs of a final one, and by
/// the core after it.
fn begins_again<R: AllocGlobal + Abort>(rt: &R, text: SessionParts) -> Result<(), Fail> {
    let plan = plan_of(rt.alloc(), text)?;
    let expected = Some(clock_run(rt.alloc(), &plan)?);
    let first = run_alone(rt.alloc(), plan)?;
    let second = simulated_again(rt, first)?;
    assert_eq!(rt; second.final_report(rt.alloc(), true)?, expected);
    let third = simulated_again(rt, second)?;
    assert_eq!(rt; third.final_report(rt.alloc(), true)?, expected);
    Ok(())
}

#[test]
fn cores_begin_again(rt: HostRuntime) -> Result<(), Fail> {
    for text in [
        TIE_ONE_LATER,
        TWO_LEAST_QUERIES,
        LATER_STALL,
        POLLING_LOOP,
        BOTH_ENDS_IN_ONE_MODULE,
    ] {
        begins_again(&rt, text)?;
    }
    Ok(())
}
