//! What is done at one module before the next module's turn.
ghost use Rattle.std.specs.Prelude.{◌≡◌, ℕ, ◌<◌, true, false, length, slice_index_or, IfOk, IsNone, OnErr};
ghost use Rattle.sim_core.specs.{MayRun, design, theory_of, GoesOnIf, StopsAtRun, VisitLeads, HasVisited};

use crate::machine::Core;
use crate::stretch::StretchEnd;
use flow_word::{OutOfMemory, Steps};
use outcome_guard::Query;
use std::sync::ledger::Ledger;

/// The most Runs of a stretch, or the most steps to which a stretch gives cycles: so few that a module's steps were made shortly before
/// they get their cycles.
const STRETCH: u32 = 64;

/// What a visit did at a module.
#[derive(Clone, Copy, Debug, PartialEq, Eq)]
pub(crate) enum Visit {
    /// Some actions, after which other actions may be permitted for the modules beside it. `again` tells whether to visit the
    /// module again at once.
    Acted { again: bool },
    /// The outcome that is found for this query is not the assumed one. Nothing changed.
    Differs(Query),
    /// Nothing: no Run, Assign or Answer of the module is permitted. Nothing changed.
    Idle,
}

impl Core {
    /// Does permitted actions of a module, up to some number: Runs first, then Assigns and Answers, and no Earliest.
    pub(crate) fn visit<L: Ledger>(
        &mut self,
        owner: u32,
        steps: &mut Steps<L>,
    ) -> Result<Visit, OutOfMemory>
        requires owner { owner < length self.old.plan.design.modules }
        requires here { slice_index_or self.old.lent owner true ≡ false }
        ensures visited { IfOk result (λ visit. HasVisited visit self.old steps.old owner self.new steps.new) }
        ensures no_memory { OnErr result (StopsAtRun self.old steps.old owner self.new steps.new) }
    {
        match self.run_on(owner, steps)? {
            None => Ok(self.time_on(owner, steps)),
            Some(again) => match self.time_on(owner, steps) {
                Visit::Acted { again: more } => Ok(Visit::Acted {
                    again: again | more,
                }),
                Visit::Differs(_) | Visit::Idle => Ok(Visit::Acted { again }),
            },
        }
    }

    /// Does Runs of a module as long as they are permitted, and the Assigns and Answers by which its queries get their outcomes.
    /// `None` where no Run was permitted; else whether to visit the module again at once.
    fn run_on<L: Ledger>(
        &mut self,
        owner: u32,
        steps: &mut Steps<L>,
    ) -> Result<Option<bool>, OutOfMemory>
        requires owner { owner < length self.old.plan.design.modules }
        requires here { slice_index_or self.old.lent owner true ≡ false }
        ensures ran { IfOk result (λ ran. GoesOnIf ran self.old steps.old self.new steps.new) }
        ensures none { IfOk result (λ ran. IsNone ran → MayRun (design self.old.plan) (theory_of self.old) owner → ⊥) }
        ensures no_memory { OnErr result (StopsAtRun self.old steps.old owner self.new steps.new) }
    {
        self.agrees();
        if !self.due.running.has(owner) {
            return Ok(None);
        }
        let Some(first) = self.run_some(owner)? else {
            return Ok(None);
        };
        let mut end = first;
        let mut again = false;
        for _ in 1..STRETCH {
            match end {
                StretchEnd::On { asks: true } => {}
                StretchEnd::On { asks: false } => return Ok(Some(true)),
                StretchEnd::Still | StretchEnd::Short => return Ok(Some(again)),
            }
            match self.time_and_run(owner, steps)? {
                Some((more, next)) => {
                    again |= more;
                    end = next;
                }
                None => return Ok(Some(again)),
            }
        }
        Ok(Some(true))
    }

    /// Does the Assigns and Answers by which a module's newest step may get its outcomes, and then Runs. `None` where none of them
    /// was permitted; else whether to visit the module again at once, and why there was no further Run.
    #[inline(always)]
    fn time_and_run<L: Ledger>(
        &mut self,
        owner: u32,
        steps: &mut Steps<L>,
    ) -> Result<Option<(bool, StretchEnd)>, OutOfMemory>
        requires owner { owner < length self.old.plan.design.modules }
        requires here { slice_index_or self.old.lent owner true ≡ false }
        ensures ran { IfOk result (λ ran. GoesOnIf ran self.old steps.old self.new steps.new) }
        ensures no_memory { OnErr result (StopsAtRun self.old steps.old owner self.new steps.new) }
    {
        let Visit::Acted { again } = self.time_on(owner, steps) else {
            return Ok(None);
        };
        match self.run_some(owner)? {
            Some(end) => Ok(Some((again, end))),
            None => Ok(Some((again, StretchEnd::Still))),
        }
    }

    /// Does Runs of a module as long as they are permitted, up to some number. `None` where none was permitted; else why there was no
    /// further one.
    #[inline(always)]
    fn run_some(&mut self, owner: u32) -> Result<Option<StretchEnd>, OutOfMemory>
        requires owner { owner < length self.old.plan.design.modules }
        requires here { slice_index_or self.old.lent owner true ≡ false }
        ensures ran { IfOk result (λ ran. (n : ℕ) → GoesOnIf ran self.old n self.new n) }
        ensures none { IfOk result (λ ran. IsNone ran → MayRun (design self.old.plan) (theory_of self.old) owner → ⊥) }
        ensures no_memory { OnErr result ((n : ℕ) → StopsAtRun self.old n owner self.new n) }
    {
        self.agrees();
        let ran = self.run_up_to(owner, STRETCH);
        if ran.end.is_short() {
            return Err(OutOfMemory);
        }
        if ran.runs == 0 {
            return Ok(None);
        }
        Ok(Some(ran.end))
    }

    /// Does Assigns and Answers of a module as long as they are permitted, up to some number.
    #[inline(always)]
    fn time_on<L: Ledger>(&mut self, owner: u32, steps: &mut Steps<L>) -> Visit
        requires { owner < length self.old.plan.design.modules }
        ensures { VisitLeads result self.old steps.old owner self.new steps.new }
    {
        if !self.due.asking.has(owner) {
            return Visit::Idle;
        }
        self.time_stretch(owner, STRETCH, steps).visit
    }
}
