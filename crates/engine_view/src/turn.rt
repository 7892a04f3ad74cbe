//! A turn at one module.
ghost use Rattle.std.specs.Prelude.{◌≡◌, ℕ, ◌+◌, ◌<◌, ◌≤◌, ◌^◌, true, length, All};
ghost use Rattle.engine_view.specs.{cycle_bound, with_cycle, in_lane, IsAccess, HasPlaces, when_possible, is_decided as decided};
ghost use Rattle.engine_view.specs.{queries_in, are_among, as_known, are_decided, kinds_in, IsSomeCore, IsDue, MayTakeIn, HasTimed};
ghost use Rattle.engine_view.specs.{KeepsRoom, lanes_after, ticks_of, is_progress, left};

use crate::engine::Engine;
use event_graph::{Access, Candidate, Graph, LaneAccesses, LaneStep, Place};
use fifo_table::FifoTable;
use flow_word::Steps;
use outcome_guard::Guard;
use query_log::Query;
use query_resolve::{Decision, decide};
use std::sync::ledger::Ledger;
use time_engine::{assign, candidate_and_queries};

/// What a turn did with a module's first step without a cycle.
#[derive(Clone, Copy, Debug, PartialEq, Eq)]
pub enum Timing {
    /// The step has this cycle.
    Assigned(u64),
    /// Those queries of the step that had no verified outcome were answered in this clock.
    Answered(u64),
    /// The outcome that is found for this query is not the assumed one. Nothing changed.
    Differs(Query),
    /// Neither an Assign nor an Answer is permitted. Nothing changed.
    Nothing,
}

impl Engine {
    /// Does a module's Assign or Answer, where one is permitted: gives its first step without a cycle a cycle, or answers the
    /// step's queries.
    ///
    /// It takes no memory.
    #[inline(always)]
    pub fn time_first<L: Ledger>(&mut self, owner: u32, limit: u64, steps: &mut Steps<L>) -> Timing
        requires owner { owner < length self.old.graph.lanes }
        requires limit { limit ≤ cycle_bound }
        requires core { IsSomeCore self.old }
        ensures done { HasTimed result limit owner self.old self.new }
        ensures room { KeepsRoom self.old self.new }
        ensures lanes { self.new.graph.lanes ≡ lanes_after result owner self.old.graph.lanes }
        ensures kinds { kinds_in self.new.fifos.channels ≡ kinds_in self.old.fifos.channels }
        ensures less { is_progress result ≡ true → left self.new < left self.old }
        ensures ticks { steps.new ≡ steps.old + ticks_of result }
    {
        let (found, queries) = candidate_and_queries(&self.graph, &self.fifos, owner, limit);
        let Candidate::At(cycle) = found else {
            return Timing::Nothing;
        };
        if queries == 0 {
            self.assign_first(owner, cycle, steps);
            return Timing::Assigned(cycle);
        }
        self.time_asking(owner, cycle, queries, steps)
    }

    /// Does a module's Assign or Answer, where one is permitted. The cycle of its first step without one is determined, and
    /// `queries` of the step's accesses are queries.
    #[inline(never)]
    fn time_asking<L: Ledger>(
        &mut self,
        owner: u32,
        cycle: u64,
        queries: u64,
        steps: &mut Steps<L>,
    ) -> Timing
        requires core { IsSomeCore self.old }
        requires due { (limit : ℕ) × IsDue self.old limit owner cycle queries }
        ensures done { (limit : ℕ) → IsDue self.old limit owner cycle queries → HasTimed result limit owner self.old self.new }
        ensures room { KeepsRoom self.old self.new }
        ensures lanes { self.new.graph.lanes ≡ lanes_after result owner self.old.graph.lanes }
        ensures kinds { kinds_in self.new.fifos.channels ≡ kinds_in self.old.fifos.channels }
        ensures less { is_progress result ≡ true → left self.new < left self.old }
        ensures ticks { steps.new ≡ steps.old + ticks_of result }
    {
        let first = self.graph.look(Place {
            module: owner,
            step: self.graph.frontier(owner),
        });
        if are_first(&first, queries, self.log.verified(owner)) {
            self.assign_first(owner, cycle, steps);
            return Timing::Assigned(cycle);
        }
        if !all_decided(&self.graph, &self.fifos, &first.accesses) {
            return Timing::Nothing;
        }
        match self.answer_first(owner, cycle) {
            Guard::Same => Timing::Answered(cycle),
            Guard::Differs(query) => Timing::Differs(query),
        }
    }

    /// Does a module's Assign, which must be permitted: gives its first step without a cycle this one.
    #[inline(always)]
    pub fn assign_first<L: Ledger>(&mut self, owner: u32, cycle: u64, steps: &mut Steps<L>)
        requires owner { owner < length self.old.graph.lanes }
        requires may { MayTakeIn self.old owner cycle }
        ensures done { (limit : ℕ) → cycle < limit → HasTimed (Timing.Assigned cycle) limit owner self.old self.new }
        ensures room { KeepsRoom self.old self.new }
        ensures lanes { self.new.graph.lanes ≡ with_cycle self.old.graph.lanes owner cycle }
        ensures rest { self.new ≡ record self.old { graph = self.new.graph } }
        ensures less { left self.new < left self.old }
        ensures ticks { steps.new ≡ steps.old + 1 }
    {
        assign(&mut self.graph, owner, cycle, steps);
    }
}

/// Whether all queries of a step, `queries` of them, are among its module's first `verified` queries.
fn are_first(step: &LaneStep<'_>, queries: u64, verified: u64) -> bool
    requires { queries ≡ queries_in step.now.accesses }
    ensures { result ≡ are_among (in_lane step.now) verified }
{
    if queries == 0 {
        return true;
    }
    match verified.checked_sub(step.first_query) {
        Some(rest) => queries <= rest,
        None => false,
    }
}

/// How many of the accesses are queries.
pub fn count_queries(accesses: &[Access]) -> u64
    ensures count { result ≡ queries_in accesses.now }
{
    queries_among(&LaneAccesses::of_slice(accesses))
}

/// How many of a step's accesses are queries.
pub(crate) fn queries_among(accesses: &LaneAccesses<'_>) -> u64
    requires { length accesses.now < 2 ^ 64 }
    ensures { result ≡ queries_in accesses.now }
{
    accesses
        .iter()
        .filter(|access| !access.kind.is_blocking())
        .count() as u64
}

/// Whether each query among these accesses is decided.
fn all_decided(graph: &Graph, fifos: &FifoTable, accesses: &LaneAccesses<'_>) -> bool
    requires inside { All (IsAccess fifos.now.channels) accesses.now }
    requires places { HasPlaces graph.now.lanes fifos.now.channels }
    ensures { result ≡ are_decided graph.now.lanes fifos.now.channels accesses.now }
{
    for access in accesses.iter() {
        if !access.kind.is_blocking() && !is_decided(graph, fifos, &access) {
            return false;
        }
    }
    true
}

/// Whether a query is decided: it is known from which clock on it is possible, or that it never is.
fn is_decided(graph: &Graph, fifos: &FifoTable, access: &Access) -> bool
    requires access { IsAccess fifos.now.channels access.now }
    requires places { HasPlaces graph.now.lanes fifos.now.channels }
    ensures { result ≡ decided (as_known (when_possible graph.now.lanes fifos.now.channels access.now)) }
{
    !matches!(decide(graph, fifos, access, 0), Decision::Undecided)
}
