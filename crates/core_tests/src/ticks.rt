//! How often the counter of an edit ticks: contracts tell it, and so do numbers that are read from the core.
ghost use Rattle.std.specs.Prelude.{◌≡◌, length, map, IfOk};
ghost use Rattle.core_tests.specs.{EditFits, IsFinal, design, channel_at, depth_of, others_in, theory_of, others_of, HasTicked};

use flow_check::check;
use flow_design::limits::Scale;
use flow_design::{CheckedPlan, Edit};
use flow_grammar::keeps_rules;
use flow_text::read_session;
use flow_word::{OutOfMemory, Steps};
use sim_core::{Core, Guard, run_alone};
use std::alloc::Global;
use std::marker::Brand;
use std::process::Abort;
use std::sync::ledger::{Blank, Ledger};
use std::test::Fail;
use worked_sessions::{SessionParts, THREE_PUSHES_AND_POPS, joined};

/// How many numbers of one list differ from those at the same places in the other. What one list has more counts too.
fn count_others(old: &[u64], new: &[u64]) -> usize
    ensures { result ≡ others_in old.now new.now }
{
    let shared = old.len().min(new.len());
    let mut others = 0usize;
    for k in 0..shared {
        if old[k] != new[k] {
            others += 1;
        }
    }
    others + (old.len().max(new.len()) - shared)
}

/// How many numbers differ in all, over lists that are compared place by place.
fn count_moved<R: Abort>(rt: &R, old: &[Vec<u64>], new: &[Vec<u64>]) -> usize
    requires { length old.now ≡ length new.now }
    ensures { result ≡ others_of (map (λ v. v.items) old.now) (map (λ v. v.items) new.now) }
{
    let mut moved = 0usize;
    for k in 0..old.len() {
        let others = count_others(old[k].as_slice(), new[k].as_slice());
        moved = match moved.checked_add(others) {
            Some(sum) => sum,
            None => panic!(rt; "more than there can be"),
        };
    }
    moved
}

/// One entry per module: the cycles of its steps.
#[tactic(auto, using(crate::proofs::Counting::cycles_more, crate::proofs::Counting::all_cycles))]
fn cycles_of(alloc: Global, core: &Core) -> Result<Vec<Vec<u64>>, OutOfMemory>
    ensures { IfOk result (λ all. map (λ v. v.items) all.items ≡ map (λ l. l.cycles) core.now.held.lanes) }
{
    let mut all = Vec::new(alloc);
    for owner in 0..core.modules() {
        let mine = core.engine().graph.cycles(owner).to_vec(alloc)?;
        if all.push(mine).is_err() {
            return Err(OutOfMemory);
        }
    }
    Ok(all)
}

/// Edits a final core, and returns of how many steps the cycle has changed. No outcome may change. The counter ticks that often, or
/// else once for each cycle from the first touched clock on. It never ticks where the edit leaves the depth as it is.
fn edit_counted<L: Ledger, R: Abort>(
    rt: &R,
    alloc: Global,
    core: &mut Core,
    edit: &Edit,
    steps: &mut Steps<L>,
) -> Result<usize, OutOfMemory>
    requires is_final { IsFinal (design core.old.plan) core.old.plan.cycles (theory_of core.old) }
    requires fits { EditFits core.old.plan edit.now }
    ensures ticked { IfOk result (λ moved. HasTicked core.old core.new edit.now steps.old steps.new moved) }
    ensures stands { IfOk result (λ moved. depth_of (channel_at core.old.held.channels edit.now.channel).kind ≡ edit.now.depth
        → steps.new ≡ steps.old) }
{
    let before = cycles_of(alloc, core)?;
    let _modules = core.modules();
    let same = core.edit(edit, steps);
    assert_eq!(rt; same, Guard::Same);
    let after = cycles_of(alloc, core)?;
    let _modules_after = core.modules();
    Ok(count_moved(rt, before.as_slice(), after.as_slice()))
}

/// Edits a final core with a counter of its own, and returns of how many steps the cycle has changed.
fn count_edit<L: Ledger, R: AllocGlobal + Abort>(
    rt: &R,
    core: &mut Core,
    edit: &Edit,
    blank: Blank,
) -> Result<usize, OutOfMemory>
    requires name { blank.name ≡ L.name }
    requires parts { blank.parts ≡ L.parts }
    requires one { L.parts ≡ 1 }
    requires is_final { IsFinal (design core.old.plan) core.old.plan.cycles (theory_of core.old) }
    requires fits { EditFits core.old.plan edit.now }
{
    let mut steps = Steps::<L>::new(blank);
    edit_counted(rt, rt.alloc(), core, edit, &mut steps)
}

/// Of how many steps the edit of a session with this number changes the cycle.
fn moved_by<R: AllocGlobal + Abort>(rt: &R, text: &[u8], number: usize) -> Result<usize, Fail> {
    keeps_rules();
    let (session, lines) = read_session(rt.alloc(), Scale::Standard, text)?;
    let checked = check(rt.alloc(), Scale::Standard, &session, &lines)?;
    let edits = checked.edits.as_slice();
    assert!(rt; number < edits.len());
    let edit = edits[number];
    let mut core = run_alone(rt.alloc(), CheckedPlan::new(checked.plan))?;
    let moved = count_edit::<Brand, R>(rt, &mut core, &edit, Blank::new(1))?;
    Ok(moved)
}

/// Three values go through FIFO `b`, which holds one element in clock 1, and never two. Meanwhile 300 values go through FIFO `c`.
const BESIDE_A_LONG_LOOP: SessionParts = &[
    b"flow 1\nfifo b 8\nfifo c 16\n",
    THREE_PUSHES_AND_POPS,
    b"\
module R
reg i 16
reg g 1
loop l 1 1 while g
at 0 write c i
at 0 set i + i 1
at 0 set g <u i 299
stop
module S
reg x 16
reg i 16
reg g 1
loop l 1 1 while g
at 0 read c x
at 0 set i + i 1
at 0 set g <u i 299
stop
depth b 2
depth b 1
depth c 1
end
",
];

#[test]
fn edits_tick_for_cycles_that_change(rt: HostRuntime) -> Result<(), Fail> {
    let text = joined(rt.alloc(), BESIDE_A_LONG_LOOP)?;
    // the edit leaves the depth as it is
    assert_eq!(rt; moved_by(&rt, text.as_slice(), 0)?, 0);
    // b holds one element in clock 1: five steps are in or after it, and of these only the first read keeps its cycle
    assert_eq!(rt; moved_by(&rt, text.as_slice(), 1)?, 4);
    // c holds one element in clock 1: all steps but the first write and the first read get other cycles
    assert_eq!(rt; moved_by(&rt, text.as_slice(), 2)?, 598);
    Ok(())
}
