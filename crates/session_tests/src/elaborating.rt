//! Inputs, depths and an edit in a plan, and a copy of a plan.
use flow_design::limits::Scale;
use flow_design::{Edit, copy_plan};
use flow_text::read_session;
use session_plan::elaborate;
use std::process::Abort;
use std::test::Fail;
use worked_sessions::{REALISTIC_LINE, plan_of};

/// A source with two values, of which one is too wide, and a FIFO with an edit of its depth.
const EDITED: &[u8] = b"\
flow 1
source a 8
fifo f 8 3
input a 300 5
depth f 2
end
";

#[test]
fn names_become_numbers(rt: HostRuntime) -> Result<(), Fail> {
    let (session, _) = read_session(rt.alloc(), Scale::Standard, EDITED)?;
    let checked = elaborate(rt.alloc(), Scale::Standard, session.statements.as_slice())?;
    let edit = Edit {
        channel: 1,
        depth: 2,
    };
    assert_eq!(rt; checked.edits.as_slice(), [edit].as_slice());
    assert_eq!(rt; checked.plan.depths.as_slice(), [0, 3].as_slice());
    let Some(first) = checked.plan.inputs.as_slice().first() else {
        return Err(Fail::new("there are inputs"));
    };
    assert_eq!(rt; first.as_slice(), [44, 5].as_slice());
    Ok(())
}

#[test]
fn a_plan_is_copied(rt: HostRuntime) -> Result<(), Fail> {
    let plan = plan_of(rt.alloc(), REALISTIC_LINE)?.into_plan();
    let copy = copy_plan(rt.alloc(), &plan)?;
    assert_eq!(rt; copy, plan);
    Ok(())
}
