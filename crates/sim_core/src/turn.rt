//! The cycles of the modules' steps, and the answers to their queries.
ghost use Rattle.std.specs.Prelude.{◌≡◌, ◌+◌, ◌<◌, ◌≤◌, ℕ, length, slice_index_or, IfSome, Some};
ghost use Rattle.sim_core.specs.{cycle_bound, HasAccesses, HasPlaces, IsQuiet, MayEarliest, ticks_of, design, theory_of, StretchLeads};
ghost use Rattle.sim_core.specs.{HasTurned, HasAnsweredLeast, IsFirstEarliest, AreCandidates, IsCandidate, IsListed};

use crate::beside::{ask_after, spread, unask, wake_after, wake_timed};
use crate::due::DueModules;
use crate::machine::Core;
use crate::timings::{TimedSteps, time_many};
use engine_view::Timing;
use event_graph::{Candidate, Graph};
use fifo_table::FifoTable;
use flow_word::Steps;
use outcome_guard::Guard;
use query_resolve::CandidateList;
use std::sync::ledger::Ledger;
use time_engine::candidate;

impl Core {
    /// Does a module's Assign or Answer, if one is permitted: gives its first step without a cycle a cycle, or answers the step's
    /// queries. It takes no memory.
    pub fn time<L: Ledger>(&mut self, owner: u32, steps: &mut Steps<L>) -> Timing
        requires owner { owner < length self.old.plan.design.modules }
        ensures done { HasTurned result self.old owner self.new }
        ensures plan { self.new.plan ≡ self.old.plan }
        ensures lent { self.new.lent ≡ self.old.lent }
        ensures ticks { steps.new ≡ steps.old + ticks_of result }
    {
        let limit = self.plan.cycles;
        let timing = self.engine.time_first(owner, limit, steps);
        let beside = self.wiring.hints.beside(owner);
        ask_after(
            &mut self.due.asking,
            &mut self.due.unlisted,
            beside,
            owner,
            &timing,
        );
        wake_after(&mut self.due.running, beside, owner, &timing);
        timing
    }

    /// Does Assigns and Answers of a module as long as they are permitted, until so many steps got a cycle. It takes no memory.
    #[inline(always)]
    pub(crate) fn time_stretch<L: Ledger>(
        &mut self,
        owner: u32,
        most: u32,
        steps: &mut Steps<L>,
    ) -> TimedSteps
        requires owner { owner < length self.old.plan.design.modules }
        requires some { 0 < most }
        ensures leads { StretchLeads result.visit result.answers self.old steps.old owner self.new steps.new }
        ensures ticks { steps.new ≡ steps.old + result.cycles }
        ensures answers { result.answers ≤ result.cycles }
    {
        let limit = self.plan.cycles;
        let timed = time_many(&mut self.engine, owner, limit, most, steps);
        let beside = self.wiring.hints.beside(owner);
        wake_timed(&mut self.due, beside, owner, timed);
        unask(&mut self.due, owner, timed.idle);
        timed
    }

    /// Does the Earliest of the first module with the least cycle, and answers that module and what was found. `None` where no step
    /// is open: the core is then final. No Run, Assign or Answer may be permitted. It takes no memory.
    pub(crate) fn answer_least(&mut self) -> Option<(u32, Guard)>
        requires { IsQuiet (design self.old.plan) self.old.plan.cycles (theory_of self.old) }
        ensures done { HasAnsweredLeast result self.old self.new }
        ensures first { IfSome result (λ least. IsFirstEarliest self.old least.0) }
        ensures plan { self.new.plan ≡ self.old.plan }
        ensures lent { self.new.lent ≡ self.old.lent }
    {
        let limit = self.plan.cycles;
        list_candidates(
            &self.engine.graph,
            &self.engine.fifos,
            limit,
            &self.due,
            &mut self.candidates,
        );
        self.due.list();
        match self.candidates.earliest() {
            None => None,
            Some((owner, cycle)) => Some((owner, self.answer_open(owner, cycle))),
        }
    }

    /// Does a module's Earliest, which must be permitted, in this clock. It takes no memory.
    pub fn answer_open(&mut self, owner: u32, cycle: u64) -> Guard
        requires { MayEarliest (design self.old.plan) self.old.plan.cycles (theory_of self.old) owner cycle }
        ensures done { HasAnsweredLeast (Some (owner, result)) self.old self.new }
        ensures plan { self.new.plan ≡ self.old.plan }
        ensures lent { self.new.lent ≡ self.old.lent }
    {
        let beside = self.wiring.hints.beside(owner);
        ask_after(
            &mut self.due.asking,
            &mut self.due.unlisted,
            beside,
            owner,
            &Timing::Answered(cycle),
        );
        spread(&mut self.due.running, beside, owner);
        self.engine.answer_first(owner, cycle)
    }
}

/// Writes what is known of the cycle of each module's first step without one into the list, where it may have changed.
fn list_candidates(
    graph: &Graph,
    fifos: &FifoTable,
    limit: u64,
    due: &DueModules,
    candidates: &mut CandidateList,
)
    requires accesses { HasAccesses graph.now.lanes fifos.now.channels }
    requires places { HasPlaces graph.now.lanes fifos.now.channels }
    requires limit { limit ≤ cycle_bound }
    requires count { length candidates.old ≡ length graph.now.lanes }
    requires listed { (n : ℕ) → n < length graph.now.lanes → IsListed due.now n
        → IsCandidate graph.now.lanes fifos.now.channels limit n (slice_index_or candidates.old n Candidate.Nothing) }
    ensures count { length candidates.new ≡ length graph.now.lanes }
    ensures all { AreCandidates graph.now.lanes fifos.now.channels limit (length graph.now.lanes) candidates.new }
{
    let count = graph.modules();
    let mut from = 0;
    while let Some(owner) = due.first_unlisted(from, count) {
        candidates.set(owner, candidate(graph, fifos, owner, limit));
        from = owner + 1;
    }
}
