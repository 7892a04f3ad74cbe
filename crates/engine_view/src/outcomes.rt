//! The outcomes of a step's queries.
ghost use Rattle.std.specs.Prelude.{◌≡◌, ◌≢◌, ◌↔◌, ℕ, ◌+◌, ◌<◌, ◌≤◌, ◌^◌, true, length, drop, slice_index, All};
ghost use Rattle.engine_view.specs.{log_at, with_outcomes, Query as query_type, IsAccess, HasPlaces, when_possible, answer, queries_in};
ghost use Rattle.engine_view.specs.{flags_by, flag_now, as_known, flag_found, found_flags, outcome_by, outcomes_of, IsOther};

use crate::take::was_possible;
use event_graph::{Access, Graph, LaneAccesses, LaneStep};
use fifo_table::FifoTable;
use outcome_guard::Guard;
use query_log::{Query, QueryLog};
use query_resolve::{Decision, decide, late};
use time_engine::query_count;

/// Adds the outcomes that a step's queries have in this clock. An undecided query counts as not possible. There must be room for
/// the outcomes.
pub fn write_outcomes(
    graph: &Graph,
    fifos: &FifoTable,
    log: &mut QueryLog,
    owner: u32,
    cycle: u64,
    accesses: &LaneAccesses<'_>,
)
    requires owner { owner < length log.old.logs }
    requires inside { All (IsAccess fifos.now.channels) accesses.now }
    requires places { HasPlaces graph.now.lanes fifos.now.channels }
    requires verified { (log_at log.old.logs owner).verified ≡ length (log_at log.old.logs owner).outcomes }
    requires room { queries_in accesses.now ≤ slice_index log.old.rooms owner }
    ensures logs { log.new.logs ≡ with_outcomes log.old.logs owner
        (outcomes_of accesses.now (found_flags graph.now.lanes fifos.now.channels cycle accesses.now)) }
    ensures own_room { slice_index log.old.rooms owner ≤ slice_index log.new.rooms owner + queries_in accesses.now }
    ensures other_rooms { (k : ℕ) → k ≢ owner → slice_index log.old.rooms k ≤ slice_index log.new.rooms k }
{
    for access in accesses.iter() {
        if !access.kind.is_blocking() {
            let outcome = outcome_in(graph, fifos, &access, cycle);
            log.add(owner, outcome);
        }
    }
}

/// Compares the recorded outcomes of a step's queries with those that they have in this clock.
pub fn compare_outcomes(
    graph: &Graph,
    fifos: &FifoTable,
    log: &QueryLog,
    owner: u32,
    cycle: u64,
    step: &LaneStep<'_>,
) -> Guard
    requires owner { owner < length log.now.logs }
    requires inside { All (IsAccess fifos.now.channels) step.now.accesses }
    requires places { HasPlaces graph.now.lanes fifos.now.channels }
    requires few { step.now.first_query + length step.now.accesses < 2 ^ 64 }
    ensures same { result ≡ Guard.Same
        → flags_by step.now.accesses (drop step.now.first_query (log_at log.now.logs owner).outcomes)
        ≡ found_flags graph.now.lanes fifos.now.channels cycle step.now.accesses }
    ensures differs { (q : query_type) → result ≡ Guard.Differs q
        → IsOther (flags_by step.now.accesses (drop step.now.first_query (log_at log.now.logs owner).outcomes))
        (found_flags graph.now.lanes fifos.now.channels cycle step.now.accesses) step.now.accesses owner step.now.first_query q }
{
    let mut number = step.first_query;
    for access in step.accesses.iter() {
        let outcome = log.outcome(owner, number);
        if !is_alike(graph, fifos, &access, outcome, cycle) {
            return Guard::Differs(Query {
                module: owner,
                number,
                kind: access.kind,
                channel: access.channel,
                ordinal: access.ordinal,
            });
        }
        number += query_count(access.kind);
    }
    Guard::Same
}

/// Whether an access blocks, or is a query whose recorded outcome is the one that it has in this clock.
fn is_alike(
    graph: &Graph,
    fifos: &FifoTable,
    access: &Access,
    outcome: Option<bool>,
    cycle: u64,
) -> bool
    requires access { IsAccess fifos.now.channels access.now }
    requires places { HasPlaces graph.now.lanes fifos.now.channels }
    ensures { (result ≡ true) ↔ (flag_now access.now.kind outcome ≡ flag_found graph.now.lanes
        fifos.now.channels cycle access.now) }
{
    if access.kind.is_blocking() {
        return true;
    }
    was_possible(access.kind, outcome) == is_possible(graph, fifos, access, cycle)
}

/// The outcome that a query has in this clock. An undecided query counts as not possible.
fn outcome_in(graph: &Graph, fifos: &FifoTable, access: &Access, cycle: u64) -> bool
    requires access { IsAccess fifos.now.channels access.now }
    requires places { HasPlaces graph.now.lanes fifos.now.channels }
    ensures { result ≡ outcome_by access.now.kind (answer (as_known (when_possible graph.now.lanes fifos.now.channels access.now)) cycle) }
{
    is_possible(graph, fifos, access, cycle) != late(access.kind)
}

/// Whether it is known that the query is possible in this clock.
fn is_possible(graph: &Graph, fifos: &FifoTable, access: &Access, cycle: u64) -> bool
    requires access { IsAccess fifos.now.channels access.now }
    requires places { HasPlaces graph.now.lanes fifos.now.channels }
    ensures { result ≡ answer (as_known (when_possible graph.now.lanes fifos.now.channels access.now)) cycle }
{
    matches!(decide(graph, fifos, access, cycle), Decision::Yes)
}
