//! The cycle of a module's first step without a cycle.
ghost use Rattle.std.specs.Prelude.{◌≡◌, ℕ, List, All, ◌+◌, ◌^◌, ◌<◌, ◌≤◌, ◌↔◌, ◌∷◌, [], length, filter, not, cond, slice_index, position};
ghost use Rattle.std.specs.Prelude.{unwrap_or, is_none, None, Some, IfSome, IfOk, OnOk, IfErr, IsSomeAnd};
ghost use Rattle.time_engine.specs.{is_blocking, IsSoundLane, lane_at, cycle_bound, with_cycle, last_cycle as last_of, IsAccess};
ghost use Rattle.time_engine.specs.{HasAccesses, HasPlaces, is_waiting, clocks_of, open_step, first_waiting, determined, MayTake};
ghost use Rattle.time_engine.specs.{MayTakeWith, latest as latest_of, Channel};

use crate::known::{Known, known_of};
use event_graph::{Access, Candidate, Graph, Kind, LaneAccesses, Place};
use fifo_table::FifoTable;
use flow_word::Steps;
use std::sync::ledger::Ledger;

/// What is known of the cycle of a module's first step without a cycle. A determined cycle of `limit` or more is `Beyond`. It looks
/// at each access of that step once, and takes no memory.
#[inline(always)]
pub fn candidate(graph: &Graph, fifos: &FifoTable, owner: u32, limit: u64) -> Candidate
    requires owner { owner < length graph.now.lanes }
    requires accesses { HasAccesses graph.now.lanes fifos.now.channels }
    requires places { HasPlaces graph.now.lanes fifos.now.channels }
    requires limit { limit ≤ cycle_bound }
    ensures nothing { (result ≡ Candidate.Nothing) ↔ (open_step (lane_at graph.now.lanes owner) ≡ None) }
    ensures waits { (i : ℕ) → (result ≡ Candidate.Waits i) ↔ (first_waiting graph.now.lanes fifos.now.channels owner ≡ Some i) }
    ensures beyond { (result ≡ Candidate.Beyond)
        ↔ IsSomeAnd (determined graph.now.lanes fifos.now.channels owner) (λ cycle. limit ≤ cycle) }
    ensures at { (cycle : ℕ) → (result ≡ Candidate.At cycle) ↔ ((determined graph.now.lanes fifos.now.channels owner ≡ Some cycle)
        × (cycle < limit)) }
    ensures may_take { (cycle : ℕ) → result ≡ Candidate.At cycle → MayTake graph.now.lanes owner cycle }
{
    candidate_and_queries(graph, fifos, owner, limit).0
}

/// What is known of the cycle of a module's first step without a cycle, and how many of its accesses are queries. The number is
/// right where no access waits.
#[inline(always)]
pub fn candidate_and_queries(
    graph: &Graph,
    fifos: &FifoTable,
    owner: u32,
    limit: u64,
) -> (Candidate, u64)
    requires owner { owner < length graph.now.lanes }
    requires accesses { HasAccesses graph.now.lanes fifos.now.channels }
    requires places { HasPlaces graph.now.lanes fifos.now.channels }
    requires limit { limit ≤ cycle_bound }
    ensures nothing { (result.0 ≡ Candidate.Nothing) ↔ (open_step (lane_at graph.now.lanes owner) ≡ None) }
    ensures waits { (i : ℕ) → (result.0 ≡ Candidate.Waits i) ↔ (first_waiting graph.now.lanes fifos.now.channels owner ≡ Some i) }
    ensures beyond { (result.0 ≡ Candidate.Beyond)
        ↔ IsSomeAnd (determined graph.now.lanes fifos.now.channels owner) (λ cycle. limit ≤ cycle) }
    ensures at { (cycle : ℕ) → (result.0 ≡ Candidate.At cycle) ↔ ((determined graph.now.lanes fifos.now.channels owner ≡ Some cycle)
        × (cycle < limit)) }
    ensures may_take { (cycle : ℕ) → result.0 ≡ Candidate.At cycle → MayTakeWith graph.now.lanes owner cycle result.1 }
{
    let first = graph.frontier(owner);
    if first == graph.len(owner) {
        return (Candidate::Nothing, 0);
    }
    let step = graph.look(Place {
        module: owner,
        step: first,
    });
    let arrival = last_cycle(graph, owner) + step.gap;
    match latest_and_queries(graph, fifos, &step.accesses, arrival) {
        Err(access) => (Candidate::Waits(access), 0),
        Ok((cycle, queries)) if cycle < limit => (Candidate::At(cycle), queries),
        Ok((_, queries)) => (Candidate::Beyond, queries),
    }
}

/// Gives a cycle to a module's first step without one. The steps stay, so the graph still fits each table that it fitted.
pub fn assign<L: Ledger>(graph: &mut Graph, owner: u32, cycle: u64, steps: &mut Steps<L>)
    requires { MayTake graph.old.lanes owner cycle }
    ensures lanes { graph.new.lanes ≡ with_cycle graph.old.lanes owner cycle }
    ensures kept { (k : ℕ) → slice_index graph.old.rooms k ≤ slice_index graph.new.rooms k }
    ensures sound { All IsSoundLane graph.new.lanes }
    ensures ticks { steps.new ≡ steps.old + 1 }
    ensures accesses { (channels : List Channel) → HasAccesses graph.old.lanes channels → HasAccesses graph.new.lanes channels }
    ensures places { (channels : List Channel) → HasPlaces graph.old.lanes channels → HasPlaces graph.new.lanes channels }
{
    graph.set_cycle(owner, cycle, steps);
}

/// A module's last cycle, or 0 where it has none.
pub fn last_cycle(graph: &Graph, owner: u32) -> u64
    requires { owner < length graph.now.lanes }
    ensures cycle { result ≡ unwrap_or (last_of (lane_at graph.now.lanes owner)) 0 }
    ensures below { result < cycle_bound }
{
    match graph.frontier(owner).checked_sub(1) {
        Some(step) => graph
            .cycle_of(Place {
                module: owner,
                step,
            })
            .unwrap_or(0),
        None => 0,
    }
}

/// The latest of a clock and of those from which on the blocking accesses are possible. The error is the number, counted from 0, of
/// the first access that waits.
pub fn latest(
    graph: &Graph,
    fifos: &FifoTable,
    accesses: &LaneAccesses<'_>,
    clock: u64,
) -> Result<u64, u32>
    requires accesses { All (IsAccess fifos.now.channels) accesses.now }
    requires few { length accesses.now < 2 ^ 32 }
    requires places { HasPlaces graph.now.lanes fifos.now.channels }
    ensures none_waits { OnOk result (position (is_waiting graph.now.lanes fifos.now.channels) accesses.now ≡ None) }
    ensures latest { IfOk result (λ cycle. cycle ≡ latest_of (clock ∷ clocks_of graph.now.lanes fifos.now.channels accesses.now)) }
    ensures waits { IfErr result (λ i. position (is_waiting graph.now.lanes fifos.now.channels) accesses.now ≡ Some i) }
{
    let (cycle, _queries) = latest_and_queries(graph, fifos, accesses, clock)?;
    Ok(cycle)
}

/// The latest of a clock and of those from which on the blocking accesses are possible, and how many of the accesses are queries.
/// The error is the number, counted from 0, of the first access that waits.
#[inline(always)]
fn latest_and_queries(
    graph: &Graph,
    fifos: &FifoTable,
    accesses: &LaneAccesses<'_>,
    clock: u64,
) -> Result<(u64, u64), u32>
    requires accesses { All (IsAccess fifos.now.channels) accesses.now }
    requires few { length accesses.now < 2 ^ 32 }
    requires places { HasPlaces graph.now.lanes fifos.now.channels }
    ensures none_waits { OnOk result (position (is_waiting graph.now.lanes fifos.now.channels) accesses.now ≡ None) }
    ensures latest { IfOk result (λ found. found.0
        ≡ latest_of (clock ∷ clocks_of graph.now.lanes fifos.now.channels accesses.now)) }
    ensures waits { IfErr result (λ i. position (is_waiting graph.now.lanes fifos.now.channels) accesses.now ≡ Some i) }
    ensures queries { IfOk result (λ found. found.1 ≡ length (filter (λ a. not (is_blocking a.kind)) accesses.now)) }
{
    let mut cycle = clock;
    let mut queries = 0u64;
    let mut number = 0u32;
    for access in accesses.iter() {
        match later(graph, fifos, &access, cycle) {
            Some(later) => cycle = later,
            None => return Err(number),
        }
        queries += query_count(access.kind);
        number += 1;
    }
    Ok((cycle, queries))
}

/// The later of a clock and that from which on the access is possible, if it blocks. `None` where it waits.
#[inline(always)]
fn later(graph: &Graph, fifos: &FifoTable, access: &Access, clock: u64) -> Option<u64>
    requires access { IsAccess fifos.now.channels access.now }
    requires places { HasPlaces graph.now.lanes fifos.now.channels }
    ensures waits { is_none result ≡ is_waiting graph.now.lanes fifos.now.channels access.now }
    ensures later { IfSome result (λ later. later ≡ latest_of (clock ∷ clocks_of graph.now.lanes fifos.now.channels (access.now ∷ []))) }
{
    if !access.kind.is_blocking() {
        return Some(clock);
    }
    match known_of(graph, fifos, access) {
        Known::From(possible) => Some(clock.max(possible)),
        Known::Never | Known::Unknown => None,
    }
}

/// How many queries an access of this kind is: 0 or 1.
pub fn query_count(kind: Kind) -> u64
    ensures count { result ≡ cond (is_blocking kind) 0 1 }
    ensures most { result ≤ 1 }
{
    if kind.is_blocking() { 0 } else { 1 }
}
