//! The whole run, clock by clock.
ghost use Rattle.std.specs.Prelude.{◌≡◌, ◌+◌, ◌<◌, ◌≤◌, List as Items, Bool, IfOk, OnOk};
ghost use Rattle.flow_design.specs.declared.report.Verdict.TheVariants.{Cycles};
ghost use Rattle.clock_machine.specs.{ClockState as StateOf, state, some_moves, is_settled, settled_verdict, report, BlockCode as CodeOf};
ghost use Rattle.clock_machine.specs.{events_kept, report_from, AreCodes, MachineStands, HasCome};

use crate::contents::{pop_all, push_all};
use crate::ending::{Told, limit_report, settled_report};
use crate::memo::{Memo, Round, memos_for};
use crate::opening::{codes_of_all, no_answers, open_all};
use crate::standing::{AtClock, Compiled};
use crate::turns::{is_settled, take_turns};
use flow_design::{CheckedPlan, ClockState, Report};
use flow_word::{Flags, List, OutOfMemory};
use module_code::BlockCode;
use std::alloc::Global;

/// How far a run has come.
#[derive(Drop)]
pub struct Run {
    /// What the channels hold, and the state of each module. Of a module that sleeps it is the state in which it wakes.
    pub state: ClockState,
    /// What is kept of each module from clock to clock.
    pub memos: List<Memo>,
    /// The outcomes of each module's queries.
    pub answers: List<Flags>,
    /// The lists that the modules share, and the events.
    pub round: Round,
}

/// A run at clock 0.
fn open_run(alloc: Global, plan: &CheckedPlan) -> Result<Run, OutOfMemory>
    ensures { (codes : Items (Items CodeOf)) (keep : Bool) → IfOk result (HasCome plan.now codes keep 0) }
{
    let modules = plan.modules().len() as u64;
    Ok(Run {
        state: open_all(alloc, plan)?,
        memos: memos_for(alloc, modules)?,
        answers: no_answers(alloc, modules)?,
        round: Round::new(alloc),
    })
}

/// Runs one clock: each module has its turn, then all that they pop is taken off the channels, and then all that they push is put
/// in. Returns whether a module moves.
fn step(
    alloc: Global,
    of: &Compiled<'_>,
    keep: bool,
    clock: u64,
    run: &mut Run,
) -> Result<bool, OutOfMemory>
    requires codes { AreCodes of.now.plan.now of.now.codes.now }
    requires early { clock < of.now.plan.now.cycles }
    requires come { HasCome of.now.plan.now of.now.codes.now keep clock run.old }
    ensures moving { IfOk result (λ moving. moving
        ≡ some_moves of.now.plan.now clock (state of.now.plan.now clock).contents (state of.now.plan.now clock)) }
    ensures come { OnOk result (HasCome of.now.plan.now of.now.codes.now keep (clock + 1) run.new) }
{
    of.plan.fits();
    let at = AtClock {
        alloc,
        of: &*of,
        keep,
        clock,
        contents: run.state.contents.as_slice(),
    };
    let moving = take_turns(
        &at,
        run.state.modules.as_mut_slice(),
        run.memos.as_mut_slice(),
        &mut run.round,
        run.answers.as_mut_slice(),
    )?;
    pop_all(
        run.state.contents.as_mut_slice(),
        run.round.traffic.pops.as_slice(),
    );
    push_all(
        of.plan,
        clock,
        run.state.contents.as_mut_slice(),
        run.round.traffic.pushes.as_slice(),
    )?;
    run.round.traffic.clear();
    Ok(moving)
}

/// Whether the clock to which a run has come is settled.
fn settles(
    alloc: Global,
    of: &Compiled<'_>,
    keep: bool,
    clock: u64,
    run: &mut Run,
) -> Result<bool, OutOfMemory>
    requires codes { AreCodes of.now.plan.now of.now.codes.now }
    requires early { clock ≤ of.now.plan.now.cycles }
    requires come { HasCome of.now.plan.now of.now.codes.now keep clock run.old }
    ensures settled { IfOk result (λ settled. settled ≡ is_settled of.now.plan.now clock (state of.now.plan.now clock)) }
    ensures come { OnOk result (HasCome of.now.plan.now of.now.codes.now keep clock run.new) }
{
    of.plan.fits();
    let at = AtClock {
        alloc,
        of: &*of,
        keep,
        clock,
        contents: run.state.contents.as_slice(),
    };
    let states = run.state.modules.as_slice();
    let memos = run.memos.as_mut_slice();
    let settled = is_settled(&at, states, memos, &mut run.round.words)?;
    Ok(settled)
}

/// Runs one clock, and answers whether it is settled. Where no module moves the state stays as it is, so the test is made in the
/// next clock.
fn run_clock(
    alloc: Global,
    of: &Compiled<'_>,
    keep: bool,
    clock: u64,
    run: &mut Run,
) -> Result<bool, OutOfMemory>
    requires codes { AreCodes of.now.plan.now of.now.codes.now }
    requires early { clock < of.now.plan.now.cycles }
    requires come { HasCome of.now.plan.now of.now.codes.now keep clock run.old }
    ensures settled { IfOk result (λ settled. settled ≡ is_settled of.now.plan.now clock (state of.now.plan.now clock)) }
    ensures come { OnOk result (HasCome of.now.plan.now of.now.codes.now keep (clock + 1) run.new) }
{
    of.plan.fits();
    if step(alloc, of, keep, clock, run)? {
        return Ok(false);
    }
    let settled = settles(alloc, of, keep, clock + 1, run)?;
    Ok(settled)
}

/// The report of a run that has come to a settled clock.
fn settle(alloc: Global, of: &Compiled<'_>, clock: u64, run: Run) -> Result<Report, OutOfMemory>
    requires { MachineStands of.now.plan.now of.now.codes.now run.state.modules }
    ensures { IfOk result (λ r. r
        ≡ report_from of.now.plan.now (settled_verdict of.now.plan.now clock run.state) run.state run.round.events run.answers) }
{
    let Run {
        state,
        memos: _memos,
        answers,
        round,
    } = run;
    let told = Told {
        events: round.events,
        answers,
    };
    let report = settled_report(alloc, of, clock, state, told)?;
    Ok(report)
}

/// The report of a run that has come to the cycle limit without a settled clock.
fn give_up(alloc: Global, plan: &CheckedPlan, run: Run) -> Result<Report, OutOfMemory>
    ensures { IfOk result (λ r. (st : StateOf) → st.contents ≡ run.state.contents
        → r ≡ report_from plan.now (Cycles plan.now.cycles) st run.round.events run.answers) }
{
    let Run {
        mut state,
        memos: _memos,
        answers,
        round,
    } = run;
    let told = Told {
        events: round.events,
        answers,
    };
    let report = limit_report(alloc, plan, state.contents.as_mut_slice(), told)?;
    Ok(report)
}

/// The report of a plan, by going through its clocks one at a time, on the code of its blocks. A plan and its edits share that code.
/// With `keep` the report has its events. Else it has none: the events take most of the memory. `OutOfMemory` where memory ran out.
pub fn clock_run_by(
    alloc: Global,
    plan: &CheckedPlan,
    codes: &[List<BlockCode>],
    keep: bool,
) -> Result<Report, OutOfMemory>
    requires codes { AreCodes plan.now codes.now }
    ensures { IfOk result (λ r. r ≡ record (report plan.now) { events = events_kept keep (report plan.now).events }) }
{
    plan.fits();
    let of = Compiled { plan, codes };
    let mut run = open_run(alloc, plan)?;
    let cycles = plan.cycles();
    for clock in 0..cycles {
        if run_clock(alloc, &of, keep, clock, &mut run)? {
            let report = settle(alloc, &of, clock, run)?;
            return Ok(report);
        }
    }
    if settles(alloc, &of, keep, cycles, &mut run)? {
        let report = settle(alloc, &of, cycles, run)?;
        return Ok(report);
    }
    let report = give_up(alloc, plan, run)?;
    Ok(report)
}

/// The report of a plan, by going through its clocks one at a time.
///
/// It goes through as many clocks as its verdict says. A clock takes time for each module and for what is done in it. `OutOfMemory`
/// where memory ran out.
pub fn clock_run(alloc: Global, plan: &CheckedPlan) -> Result<Report, OutOfMemory>
    ensures { IfOk result (λ r. r ≡ report plan.now) }
{
    let codes = codes_of_all(alloc, plan)?;
    clock_run_by(alloc, plan, codes.as_slice(), true)
}
