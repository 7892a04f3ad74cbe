//! The pushes and pops of a step's accesses.
ghost use Rattle.std.specs.Prelude.{◌≡◌, ℕ, ◌+◌, ◌<◌, ◌≤◌, ◌^◌, true, cond, not, ◌&&◌, length, drop, All};
ghost use Rattle.engine_view.specs.{side_of, is_blocking, is_taking, Side as side_type, AreAllOf, channel_at, places_of, log_at};
ghost use Rattle.engine_view.specs.{outcome_of, IsAccess, possible_by, with_access, taken_all, kinds_in, room_of, TakesAt, CanTake};
ghost use Rattle.engine_view.specs.{done_by};

use event_graph::{Access, Kind, LaneAccesses, Place};
use fifo_table::FifoTable;
use flow_word::Side;
use query_log::QueryLog;
use query_resolve::late;
use time_engine::query_count;

/// Adds the pushes and pops of a step. When it is emitted these are those of its blocking accesses; later those of its queries that
/// were possible by their recorded outcomes. There must be room for them.
#[inline(always)]
pub fn take_all(
    fifos: &mut FifoTable,
    log: &QueryLog,
    at: Place,
    first_query: u64,
    accesses: &LaneAccesses<'_>,
    later: bool,
)
    requires owner { at.module < length log.now.logs }
    requires accesses { CanTake at.module fifos.old accesses.now }
    requires few { first_query + length accesses.now < 2 ^ 64 }
    requires step { at.step < 2 ^ 32 }
    ensures channels { fifos.new.channels ≡ taken_all at fifos.old.channels accesses.now
        (done_by later accesses.now (drop first_query (log_at log.now.logs at.module).outcomes)) }
    ensures kinds { kinds_in fifos.new.channels ≡ kinds_in fifos.old.channels }
    ensures one { (side : side_type) (c : ℕ) → room_of fifos.old side c ≤ room_of fifos.new side c + 1 }
    ensures others { (side : side_type) (c : ℕ) → All (λ a. TakesAt side c a → ⊥) accesses.now
        → room_of fifos.old side c ≤ room_of fifos.new side c }
{
    let mut number = first_query;
    for access in accesses.iter() {
        let done = is_done(log, at.module, number, access.kind, later);
        take_if(fifos, at, &access, done);
        number += query_count(access.kind);
    }
}

/// Whether an access is done at this point: with `later` as a query that was possible, else as a blocking access.
#[inline(always)]
fn is_done(log: &QueryLog, owner: u32, number: u64, kind: Kind, later: bool) -> bool
    requires { owner < length log.now.logs }
    ensures { result ≡ cond (is_blocking kind) (not later) (later && possible_by kind (outcome_of log.now.logs owner number)) }
{
    if kind.is_blocking() {
        !later
    } else {
        later && was_possible(kind, log.outcome(owner, number))
    }
}

/// Whether a query of this kind was possible, by its recorded outcome. Without an outcome it counts as not possible.
pub fn was_possible(kind: Kind, outcome: Option<bool>) -> bool
    ensures { result ≡ possible_by kind outcome }
{
    match outcome {
        Some(outcome) => outcome != late(kind),
        None => false,
    }
}

/// Adds the push or the pop of an access, if it takes one and is done.
#[inline(always)]
fn take_if(fifos: &mut FifoTable, at: Place, access: &Access, done: bool)
    requires access { IsAccess fifos.old.channels access.now }
    requires own { AreAllOf at.module (places_of (side_of access.now.kind) (channel_at fifos.old.channels access.now.channel)) }
    requires step { at.step < 2 ^ 32 }
    requires room { is_taking access.now.kind ≡ true → 0 < room_of fifos.old (side_of access.now.kind) access.now.channel }
    ensures channels { fifos.new.channels ≡ cond (is_taking access.now.kind && done)
        (with_access (side_of access.now.kind) at fifos.old.channels access.now) fifos.old.channels }
    ensures one { (side : side_type) (c : ℕ) → room_of fifos.old side c ≤ room_of fifos.new side c + 1 }
    ensures others { (side : side_type) (c : ℕ) → (TakesAt side c access.now → ⊥) → room_of fifos.old side c ≤ room_of fifos.new side c }
{
    if access.kind.takes() && done {
        add(fifos, at, access);
    }
}

/// Adds the push or the pop of an access. There must be room for it.
#[inline(always)]
fn add(fifos: &mut FifoTable, at: Place, access: &Access)
    requires access { IsAccess fifos.old.channels access.now }
    requires own { AreAllOf at.module (places_of (side_of access.now.kind) (channel_at fifos.old.channels access.now.channel)) }
    requires step { at.step < 2 ^ 32 }
    requires taking { is_taking access.now.kind ≡ true }
    requires room { 0 < room_of fifos.old (side_of access.now.kind) access.now.channel }
    ensures channels { fifos.new.channels ≡ with_access (side_of access.now.kind) at fifos.old.channels access.now }
    ensures one { (side : side_type) (c : ℕ) → room_of fifos.old side c ≤ room_of fifos.new side c + 1 }
    ensures others { (side : side_type) (c : ℕ) → (TakesAt side c access.now → ⊥) → room_of fifos.old side c ≤ room_of fifos.new side c }
{
    let _ = match access.kind.side() {
        Side::Pop => fifos.add_pop(access.channel, at),
        Side::Push => fifos.add_push(access.channel, at, access.value),
    };
}
