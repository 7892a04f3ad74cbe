//! Sessions of depth edits.
ghost use Rattle.std.specs.Prelude.{◌≡◌, ◌+◌, ◌<◌, ◌≤◌, true, IsOk, IfOk, OnOk, OnErr};
ghost use Rattle.depth_session.specs.{EditFits, report, report_with, AsksNothing, RepeatsAnswers, opening_session, plan_with_edit};
ghost use Rattle.depth_session.specs.{with_edit, IsBroken};
ghost use Rattle.lockstep_defs.specs.Verdict as lockstep;

use crate::following::{first_core, follow};
use crate::runner::Runner;
use crate::state::State;
use flow_design::{CheckedPlan, Edit, Plan, Report, Verdict};
use flow_word::OutOfMemory;
use sim_core::FinalCore;
use std::alloc::Global;
use std::marker::Model;
use std::sync::Wait;
use std::thread::Threads;

/// A plan whose FIFO depths are edited one after the other. After each edit it has the report, and how many runs all reports so far
/// count.
///
/// Contracts see the present plan, the answers that are kept, the count of runs, and whether the session is live: no edit so far
/// ran out of memory.
pub struct DepthSession {
    state: State,
    runs: u64,
    live: bool,
}

impl Drop for DepthSession {
    fn drop(self) {
        let DepthSession {
            state: _state,
            runs: _runs,
            live: _live,
        } = self;
    }
}

impl Model for DepthSession {
    ghost use Rattle.std.specs.{Prelude.◌≡◌, Prelude.true, Coded.codes};
    ghost use Rattle.flow_design.specs.{plan_code};
    ghost use Rattle.depth_session.specs.{Sessions.SessionView, Settled.IsStateSettled, Settled.session_with};

    ghost Value = { SessionView };

    ghost coded = { Prim.hlevel (codes, plan_code) };

    ghost view = { λ s. session_with s.state s.runs s.live };

    ghost invariant = { λ s. s.live ≡ true → IsStateSettled s.state };
}

impl DepthSession {
    /// A session of a plan before any edit. The runner counts one run for its report, after `OutOfMemory` too.
    ///
    /// After `OutOfMemory` the plan is lost.
    pub fn new<R: Threads + Wait + Sync, U: Runner>(
        rt: &R,
        alloc: Global,
        plan: CheckedPlan,
        runner: &mut U,
    ) -> Result<DepthSession, OutOfMemory>
        ensures opened { IfOk result (λ session. session ≡ opening_session plan) }
        ensures counted { U.made runner.old < u64.MAX → U.made runner.new ≡ U.made runner.old + 1 }
        ensures stays { u64.MAX ≤ U.made runner.old → U.made runner.new ≡ U.made runner.old }
    {
        let core = first_core(rt, alloc, plan, runner)?;
        Ok(DepthSession {
            state: State::Core(core),
            runs: 1,
            live: true,
        })
    }

    /// Edits the depth of a FIFO. The session goes on with its record where each outcome that is found is the recorded one. Else
    /// the runner simulates the plan again: it does so exactly where the report counts one more run, at most once, and never where
    /// no operation of the plan is a query. There is no error where, for each module, the report's answers are a prefix of those
    /// that are kept: then it takes no memory.
    ///
    /// Where the record goes on, the edit sets at most as many cycles as there are steps of three kinds: those with a cycle at or
    /// after the first touched clock, those that had no cycle, and new ones (`sim_core::edits_set_few`).
    ///
    /// After `OutOfMemory` the session is not live, and the plan is edited all the same.
    pub fn edit<R: Threads + Wait + Sync, U: Runner>(
        &mut self,
        rt: &R,
        alloc: Global,
        edit: &Edit,
        runner: &mut U,
    ) -> Result<(), OutOfMemory>
        requires live { self.old.live ≡ true }
        requires runs { self.old.count.runs < u64.MAX }
        requires fits { EditFits self.old.plan edit.now }
        ensures edited { OnOk result (self.new ≡ with_edit self.old edit.now) }
        ensures broken { OnErr result (IsBroken self.old self.new edit.now) }
        ensures counted { U.made runner.old < u64.MAX
            → OnOk result (U.made runner.new + self.old.count.runs ≡ U.made runner.old + self.new.count.runs) }
        ensures at_most { U.made runner.old < u64.MAX
            → U.made runner.new + self.old.count.runs ≤ U.made runner.old + (with_edit self.old edit.now).count.runs }
        ensures stays { u64.MAX ≤ U.made runner.old → U.made runner.new ≡ U.made runner.old }
        ensures few { U.made runner.new ≤ U.made runner.old + 1 }
        ensures quiet { AsksNothing self.old.plan → U.made runner.new ≡ U.made runner.old }
        ensures succeeds { RepeatsAnswers self.old.count.kept (report (plan_with_edit self.old edit.now)).answers → IsOk result }
    {
        self.live = false;
        self.runs = follow(rt, alloc, &mut self.state, self.runs, edit, runner)?;
        self.live = true;
        Ok(())
    }

    /// The report of the present plan, with its events if they are asked for, else with none.
    ///
    /// It takes memory for the report. After `OutOfMemory` the session is as it was.
    pub fn report(&self, alloc: Global, with_events: bool) -> Result<Report, OutOfMemory>
        requires { self.now.live ≡ true }
        ensures { IfOk result (λ report. report ≡ report_with with_events self.now.plan) }
    {
        self.core().report(alloc, with_events)
    }

    /// The verdict of the present plan: it is the lockstep machine's. It takes no memory, and counts no run.
    pub fn verdict(&self) -> Verdict
        requires { self.now.live ≡ true }
        ensures { result ≡ lockstep.verdict self.now.plan }
    {
        self.core().verdict()
    }

    /// The final core of the present plan.
    pub fn core(&self) -> FinalCore<'_>
        requires { self.now.live ≡ true }
        ensures { result.plan ≡ self.now.plan }
    {
        match &self.state {
            State::Core(core) => FinalCore::new(core),
            State::Plan(_) => unreachable!(),
        }
    }

    /// The present plan: with the depths of all edits so far.
    pub fn plan(&self) -> &Plan
        ensures { result.now ≡ self.now.plan }
    {
        self.state.plan()
    }

    /// How many runs the reports so far count together.
    pub fn runs(&self) -> u64
        ensures { result ≡ self.now.count.runs }
    {
        self.runs
    }

    /// Whether the session is live: no edit so far ran out of memory.
    pub fn is_live(&self) -> bool
        ensures { result ≡ self.now.live }
    {
        self.live
    }
}
