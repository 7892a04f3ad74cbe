//! A core after an edit: it goes on where outcomes are the recorded ones, and is else simulated again.
ghost use Rattle.std.specs.Prelude.{◌≡◌, ◌+◌, ◌<◌, ◌≤◌, IsOk, IfOk, OnOk, OnErr};
ghost use Rattle.depth_session.specs.{EditFits, with_depth, report, AllVerified, opening_core, design, theory_of, AreOwn, Goes, HasDriven};
ghost use Rattle.depth_session.specs.{IsSoundCore, IsEditedOn, recorded_in, AsksNothing, RepeatsAnswers, IsCoreSettled, HasGoneOn};
ghost use Rattle.depth_session.specs.{MayRunSome, plan_in, recorded_by, count_in, next_count, HasCore, IsStateSettled};

use crate::runner::Runner;
use crate::state::State;
use flow_design::{CheckedPlan, Edit, copy_plan};
use flow_word::{OutOfMemory, Steps};
use sim_core::{Core, Guard, records_are_answers};
use std::alloc::Global;
use std::marker::Brand;
use std::mem;
use std::sync::Wait;
use std::sync::ledger::{Blank, Ledger};
use std::thread::Threads;

/// Edits a settled core, and settles it again. Answers how many runs are then counted.
///
/// The runner simulates exactly where one more run is counted, and never where no operation of the plan is a query. There is no
/// error where, for each module, the report's answers are a prefix of those that the core has recorded. After `OutOfMemory` the
/// plan is edited all the same.
pub(crate) fn follow<R: Threads + Wait + Sync, U: Runner>(
    rt: &R,
    alloc: Global,
    state: &mut State,
    runs: u64,
    edit: &Edit,
    runner: &mut U,
) -> Result<u64, OutOfMemory>
    requires settled { IsStateSettled state.old }
    requires few { runs < u64.MAX }
    requires fits { EditFits (plan_in state.old) edit.now }
    ensures plan { plan_in state.new ≡ with_depth (plan_in state.old) edit.now.channel edit.now.depth }
    ensures settled { OnOk result (IsStateSettled state.new) }
    ensures counted { IfOk result (λ now. count_in state.new now ≡ next_count (count_in state.old runs) (plan_in state.new)) }
    ensures made { U.made runner.old < u64.MAX → IfOk result (λ now. U.made runner.new + runs ≡ U.made runner.old + now) }
    ensures at_most { U.made runner.old < u64.MAX
        → U.made runner.new + runs ≤ U.made runner.old + (next_count (count_in state.old runs) (plan_in state.new)).runs }
    ensures stays { u64.MAX ≤ U.made runner.old → U.made runner.new ≡ U.made runner.old }
    ensures few { U.made runner.new ≤ U.made runner.old + 1 }
    ensures quiet { AsksNothing (plan_in state.old) → U.made runner.new ≡ U.made runner.old }
    ensures succeeds { RepeatsAnswers (count_in state.old runs).kept (report (plan_in state.new)).answers → IsOk result }
{
    records_are_answers();
    let State::Core(core) = state else {
        unreachable!()
    };
    match edit_on::<Brand>(core, edit, Blank::new(1))? {
        Guard::Same => Ok(runs),
        Guard::Differs(_) => {
            run_again(rt, alloc, state, runner)?;
            Ok(runs + 1)
        }
    }
}

/// Edits a core, and does all actions that are left, until a query is found with another outcome than the recorded one.
fn edit_on<L: Ledger>(core: &mut Core, edit: &Edit, blank: Blank) -> Result<Guard, OutOfMemory>
    requires name { blank.name ≡ L.name }
    requires parts { blank.parts ≡ L.parts }
    requires one { L.parts ≡ 1 }
    requires settled { IsCoreSettled core.old }
    requires fits { EditFits core.old.plan edit.now }
    ensures plan { core.new.plan ≡ with_depth core.old.plan edit.now.channel edit.now.depth }
    ensures sound { IsSoundCore core.new }
    ensures gone { IfOk result (λ guard. HasGoneOn guard core.old edit.now core.new) }
    ensures no_memory { OnErr result (IsEditedOn core.old edit.now core.new × MayRunSome core.new) }
{
    core.agrees();
    let mut steps = Steps::<L>::new(blank);
    match core.edit(edit, &mut steps) {
        Guard::Differs(query) => {
            core.agrees();
            Ok(Guard::Differs(query))
        }
        Guard::Same => drive_on(core, &mut steps),
    }
}

/// Does all actions that are left in a core of which no run is lent, until a query is found with another outcome than the assumed
/// one.
fn drive_on<L: Ledger>(core: &mut Core, steps: &mut Steps<L>) -> Result<Guard, OutOfMemory>
    requires own { AreOwn core.old }
    ensures goes { Goes core.old steps.old core.new steps.new }
    ensures sound { IsSoundCore core.new }
    ensures driven { IfOk result (λ guard. HasDriven guard core.new) }
    ensures no_memory { OnErr result (MayRunSome core.new) }
{
    let guard = core.drive(steps);
    core.agrees();
    guard
}

/// Replaces a core by one that is simulated from the beginning. The runs of the modules are used again, so that no block is
/// compiled a second time. The old simulation is dropped before the new one begins. After `OutOfMemory` the plan is there.
fn run_again<R: Threads + Wait + Sync, U: Runner>(
    rt: &R,
    alloc: Global,
    state: &mut State,
    runner: &mut U,
) -> Result<(), OutOfMemory>
    requires { HasCore state.old }
    ensures plan { plan_in state.new ≡ plan_in state.old }
    ensures settled { OnOk result (IsStateSettled state.new) }
    ensures answers { OnOk result (recorded_by state.new ≡ (report (plan_in state.new)).answers) }
    ensures counted { U.made runner.old < u64.MAX → OnOk result (U.made runner.new ≡ U.made runner.old + 1) }
    ensures at_most { U.made runner.old < u64.MAX → U.made runner.new ≤ U.made runner.old + 1 }
    ensures stays { u64.MAX ≤ U.made runner.old → U.made runner.new ≡ U.made runner.old }
{
    let plan = copy_plan(alloc, state.plan())?;
    let State::Core(core) = mem::replace(state, State::Plan(plan)) else {
        unreachable!()
    };
    let opening = core.again(alloc)?;
    *state = State::Core(second_core(rt, alloc, opening, runner)?);
    Ok(())
}

/// Simulates a plan once more, on the runs of the core that it had. The answer has the answers of the plan's report.
fn second_core<R: Threads + Wait + Sync, U: Runner>(
    rt: &R,
    alloc: Global,
    opening: Core,
    runner: &mut U,
) -> Result<Core, OutOfMemory>
    requires opening { theory_of opening ≡ opening_core (design opening.plan) }
    requires verified { AllVerified (theory_of opening) }
    requires own { AreOwn opening }
    ensures plan { IfOk result (λ core. core.plan ≡ opening.plan) }
    ensures settled { IfOk result (λ core. IsCoreSettled core) }
    ensures answers { IfOk result (λ core. recorded_in core.held.logs ≡ (report opening.plan).answers) }
    ensures counted { U.made runner.old < u64.MAX → U.made runner.new ≡ U.made runner.old + 1 }
    ensures stays { u64.MAX ≤ U.made runner.old → U.made runner.new ≡ U.made runner.old }
{
    records_are_answers();
    let core = runner.run_again(rt, alloc, opening)?;
    core.agrees();
    Ok(core)
}

/// Simulates a plan for the first time. The answer has the answers of the plan's report.
pub(crate) fn first_core<R: Threads + Wait + Sync, U: Runner>(
    rt: &R,
    alloc: Global,
    plan: CheckedPlan,
    runner: &mut U,
) -> Result<Core, OutOfMemory>
    ensures plan { IfOk result (λ core. core.plan ≡ plan) }
    ensures settled { IfOk result (λ core. IsCoreSettled core) }
    ensures answers { IfOk result (λ core. recorded_in core.held.logs ≡ (report plan).answers) }
    ensures counted { U.made runner.old < u64.MAX → U.made runner.new ≡ U.made runner.old + 1 }
    ensures stays { u64.MAX ≤ U.made runner.old → U.made runner.new ≡ U.made runner.old }
{
    records_are_answers();
    let core = runner.run_plan(rt, alloc, plan)?;
    core.agrees();
    Ok(core)
}
