//! The advice as a library gives it, with its report. The program tells the verdict alone.
use depth_advice::advise;
use depth_session::AloneRunner;
use flow_design::Verdict;
use std::test::Fail;
use worked_sessions::{TWO_MODULES, plan_of};

#[test]
fn advice_has_a_report(rt: HostRuntime) -> Result<(), Fail> {
    let alloc = rt.alloc();
    let plan = plan_of(alloc, TWO_MODULES)?;
    let advice = advise(&rt, alloc, plan, &mut AloneRunner::new())?;
    assert_eq!(rt; advice.report.verdict, Verdict::Done(4));
    // A source, a FIFO and a sink.
    assert_eq!(rt; advice.depths.as_slice(), [0, 2, 0].as_slice());
    Ok(())
}
