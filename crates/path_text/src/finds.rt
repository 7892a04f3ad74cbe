//! Finds: the queries that found an element for which their module had polled.
ghost use Rattle.std.specs.Prelude.{◌≡◌, ◌++◌, ◌<◌, ◌≤◌, true, AllPairs, IfOk, OnOk, length, replicate, slice_index, slice_index_or};
ghost use Rattle.std.specs.Prelude.{slice_set};
ghost use Rattle.path_text.specs.{is_fifo as is_fifo_kind, FitsEngine, before, AreAccesses, if_some, is_hit as is_hit_of};
ghost use Rattle.path_text.specs.{seeks as seeks_by, AreFinds, found_by, missed_of as missed_in, missed_with as missed_after, unmissed};

use crate::moved::moved_clocks;
use crate::search::count_before;
use flow_design::{ChannelKind, Plan};
use flow_word::{Kind, List, OutOfMemory, Side, Words};
use sim_core::LoggedAccess;
use stall_text::is_missed;
use std::alloc::Global;

/// A query that found an element on a FIFO, after another query of its kind on that FIFO was missed.
#[derive(Clone, Copy, Debug, PartialEq, Eq)]
pub(crate) struct Find {
    pub(crate) access: LoggedAccess,
    /// The last clock before this query in which one of its kind was missed.
    pub(crate) missed: u64,
    /// The clock in which the element was pushed.
    pub(crate) pushed: u64,
}

/// For one channel, the last clock in which a query of each kind was missed.
#[derive(Clone, Copy, Debug, PartialEq, Eq)]
pub(crate) struct LastMissed {
    pub(crate) tryread: Option<u64>,
    pub(crate) empty: Option<u64>,
}

/// The queries of a log that found an element for which their module had polled, in commit order. `OutOfMemory` where memory ran
/// out.
pub(crate) fn finds(
    alloc: Global,
    plan: &Plan,
    log: &[LoggedAccess],
) -> Result<List<Find>, OutOfMemory>
    requires fits { FitsEngine plan.now }
    requires log { AreAccesses plan.now log.now }
    ensures { IfOk result (AreFinds plan.now log.now) }
{
    let channels = plan.design.channels.as_slice().len();
    let pops = moved_clocks(alloc, channels, Side::Pop, log)?;
    let pushes = moved_clocks(alloc, channels, Side::Push, log)?;
    let mut missed = nothing_missed(alloc, channels)?;
    let mut finds = List::new(alloc);
    for access in log {
        let channel = access.event.channel as usize;
        let pop = &pops.as_slice()[channel];
        let push = &pushes.as_slice()[channel];
        let of = missed.as_slice()[channel];
        push_find(&mut finds, find_of(plan, of, pop, push, access))?;
        note(&mut missed, access);
    }
    Ok(finds)
}

/// One entry per channel: no query was missed yet. `OutOfMemory` where memory ran out.
fn nothing_missed(alloc: Global, channels: usize) -> Result<List<LastMissed>, OutOfMemory>
    ensures { IfOk result (λ missed. missed ≡ replicate channels unmissed) }
{
    let mut missed = List::with_room(alloc, channels as u64)?;
    for _at in 0..channels {
        missed.push(LastMissed {
            tryread: None,
            empty: None,
        })?;
    }
    Ok(missed)
}

/// Adds a find, if there is one. `OutOfMemory` where memory ran out.
fn push_find(finds: &mut List<Find>, found: Option<Find>) -> Result<(), OutOfMemory>
    ensures { OnOk result (finds.new ≡ finds.old ++ if_some found) }
{
    match found {
        Some(find) => finds.push(find),
        None => Ok(()),
    }
}

/// The find that an access is, by the clocks of both sides of its channel. `None` where the access found no element, or none like
/// it was missed before.
fn find_of(
    plan: &Plan,
    of: LastMissed,
    pops: &Words,
    pushes: &Words,
    access: &LoggedAccess,
) -> Option<Find>
    requires channel { access.now.event.channel < length plan.now.design.channels }
    requires in_order { AllPairs (λ a b. a ≤ b) pops.now }
    requires front { is_hit_of plan.now access.now ≡ true → before pops.now access.now.event.cycle < length pushes.now }
    ensures { result ≡ found_by (is_hit_of plan.now access.now) (missed_in of access.now.event.kind) access.now
        (slice_index pushes.now (before pops.now access.now.event.cycle)) }
{
    if !is_hit(plan, access) {
        return None;
    }
    let missed = missed_of(of, access.event.kind)?;
    let front = count_before(pops.as_slice(), access.event.cycle);
    Some(Find {
        access: *access,
        missed,
        pushed: pushes.as_slice()[front],
    })
}

/// Whether an access is a query that found an element on a FIFO.
fn is_hit(plan: &Plan, access: &LoggedAccess) -> bool
    requires { access.now.event.channel < length plan.now.design.channels }
    ensures { result ≡ is_hit_of plan.now access.now }
{
    let kind = plan.design.channels.as_slice()[access.event.channel as usize].kind;
    seeks(access.event.kind) && !is_missed(access) && is_fifo(kind)
}

/// Whether an access of this kind asks whether an element is there.
fn seeks(kind: Kind) -> bool
    ensures { result ≡ seeks_by kind }
{
    matches!(kind, Kind::TryRead | Kind::Empty)
}

/// Whether a channel is a FIFO.
fn is_fifo(kind: ChannelKind) -> bool
    ensures { result ≡ is_fifo_kind kind }
{
    matches!(kind, ChannelKind::Fifo { .. })
}

/// The last clock in which a query of this kind was missed, if one was.
fn missed_of(of: LastMissed, kind: Kind) -> Option<u64>
    ensures { result ≡ missed_in of kind }
{
    match kind {
        Kind::TryRead => of.tryread,
        Kind::Empty => of.empty,
        Kind::Read | Kind::Write | Kind::TryWrite | Kind::Full => None,
    }
}

/// Notes an access, if it is a query that was missed.
fn note(missed: &mut List<LastMissed>, access: &LoggedAccess)
    requires { access.now.event.channel < length missed.old }
    ensures { missed.new ≡ slice_set missed.old access.now.event.channel
        (missed_after (slice_index_or missed.old access.now.event.channel unmissed) access.now) }
{
    let of = &mut missed.as_mut_slice()[access.event.channel as usize];
    *of = missed_with(*of, access);
}

/// The last missed queries of a channel after one more access.
fn missed_with(of: LastMissed, access: &LoggedAccess) -> LastMissed
    ensures { result ≡ missed_after of access.now }
{
    if !is_missed(access) {
        return of;
    }
    match access.event.kind {
        Kind::TryRead => LastMissed {
            tryread: Some(access.event.cycle),
            empty: of.empty,
        },
        Kind::Empty => LastMissed {
            tryread: of.tryread,
            empty: Some(access.event.cycle),
        },
        Kind::Read | Kind::Write | Kind::TryWrite | Kind::Full => of,
    }
}
