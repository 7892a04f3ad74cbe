//! An edit of a core sets no more cycles than there are accesses in or after the first clock that it touches.
ghost use Rattle.std.specs.Prelude.{◌≡◌};
ghost use Rattle.core_tests.specs.{EditFits, IsFinal, design, theory_of, AreOwn};

use flow_check::check;
use flow_design::limits::Scale;
use flow_design::{CheckedPlan, Edit};
use flow_grammar::keeps_rules;
use flow_text::read_session;
use flow_word::Steps;
use sim_core::{Core, FinalCore, Guard, LoggedAccess, run_alone};
use std::marker::Brand;
use std::process::Abort;
use std::sync::ledger::{Blank, Ledger};
use std::test::Fail;
use worked_sessions::{SessionParts, THREE_PUSHES_AND_POPS, joined};

/// Three values go through a FIFO of depth two. It holds one element in clock 1, and never two.
const THROUGH_DEPTH_TWO: SessionParts = &[
    b"flow 1\nfifo b 8\n",
    THREE_PUSHES_AND_POPS,
    b"depth b 1\ndepth b 5\nend\n",
];

/// Three values go through a FIFO of depth one.
const THROUGH_DEPTH_ONE: SessionParts = &[
    b"flow 1\nfifo b 8 1\n",
    THREE_PUSHES_AND_POPS,
    b"depth b 1\nend\n",
];

/// The accesses of a log before this clock. The log is in order of clocks.
fn accesses_before(log: &[LoggedAccess], clock: u64) -> &[LoggedAccess] {
    for i in 0..log.len() {
        if clock <= log[i].event.cycle {
            return &log[..i];
        }
    }
    log
}

/// Does the actions that a core has left. No outcome may change.
fn drive_on<L: Ledger, R: Abort>(rt: &R, core: &mut Core, steps: &mut Steps<L>)
    requires own { AreOwn core.old }
    ensures is_final { IsFinal (design core.new.plan) core.new.plan.cycles (theory_of core.new) }
{
    match core.drive(steps) {
        Ok(Guard::Same) => {}
        Ok(Guard::Differs(_)) | Err(_) => panic!(rt; "an outcome is another"),
    }
}

/// Edits a final core and does the actions that are left then. No outcome may change.
fn edit_on<L: Ledger, R: Abort>(rt: &R, core: &mut Core, edit: &Edit, blank: Blank)
    requires name { blank.name ≡ L.name }
    requires parts { blank.parts ≡ L.parts }
    requires one { L.parts ≡ 1 }
    requires is_final { IsFinal (design core.old.plan) core.old.plan.cycles (theory_of core.old) }
    requires own { AreOwn core.old }
    requires fits { EditFits core.old.plan edit.now }
    ensures is_final { IsFinal (design core.new.plan) core.new.plan.cycles (theory_of core.new) }
{
    let mut steps = Steps::<L>::new(blank);
    let same = core.edit(edit, &mut steps);
    assert_eq!(rt; same, Guard::Same);
    drive_on(rt, core, &mut steps);
}

/// How many accesses there are in or after this clock once a session is edited. Asserts that those before it stay as they were.
fn moved_from<R: AllocGlobal + Abort>(
    rt: &R,
    text: &[u8],
    number: usize,
    touched: u64,
) -> Result<usize, Fail> {
    keeps_rules();
    let (session, lines) = read_session(rt.alloc(), Scale::Standard, text)?;
    let checked = check(rt.alloc(), Scale::Standard, &session, &lines)?;
    let edits = checked.edits.as_slice();
    assert!(rt; number < edits.len());
    let edit = edits[number];
    let mut core = run_alone(rt.alloc(), CheckedPlan::new(checked.plan))?;
    let before = FinalCore::new(&core).access_log(rt.alloc())?;
    edit_on::<Brand, R>(rt, &mut core, &edit, Blank::new(1));
    let after = FinalCore::new(&core).access_log(rt.alloc())?;
    let kept = accesses_before(before.as_slice(), touched);
    assert_eq!(rt; accesses_before(after.as_slice(), touched), kept);
    Ok(after.as_slice().len().saturating_sub(kept.len()))
}

#[test]
fn edits_set_cycles_from_the_first_touched_clock(rt: HostRuntime) -> Result<(), Fail> {
    let two = joined(rt.alloc(), THROUGH_DEPTH_TWO)?;
    assert_eq!(rt; moved_from(&rt, two.as_slice(), 0, 1)?, 5);
    assert_eq!(rt; moved_from(&rt, two.as_slice(), 1, u64::MAX)?, 0);
    let one = joined(rt.alloc(), THROUGH_DEPTH_ONE)?;
    assert_eq!(rt; moved_from(&rt, one.as_slice(), 0, u64::MAX)?, 0);
    Ok(())
}
