//! The queries of each kind on each channel, and their lines.
ghost use Rattle.std.specs.Prelude.{◌≡◌, ◌≢◌, ◌<◌, ◌+◌, ◌^◌, ◌++◌, length, replicate, slice_set, slice_index_or, All, IfOk, OnOk};
ghost use Rattle.stall_text.specs.{text_of_lines, with_query, unasked, own_queries, AreAsked, AreQueries, HaveChannels};
ghost use Rattle.stall_text.specs.{all_queries as queries_in};
ghost use Rattle.stall_text.specs.Polls as form;

use flow_design::Design;
use flow_word::{Kind, List, OutOfMemory};
use report_text::{channel_name, kind_word, module_name, push_token, push_value};
use sim_core::LoggedAccess;
use std::alloc::Global;

/// The queries of one kind on one channel.
#[derive(Clone, Copy, Debug, PartialEq, Eq)]
pub(crate) struct Queries {
    /// The module that made the last of these queries; 0 where there is none.
    pub(crate) owner: u32,
    /// How many of these queries there are.
    pub(crate) tried: u64,
    /// How many of these queries were missed.
    pub(crate) missed: u64,
}

/// The queries of each kind, channel by channel.
#[derive(Drop)]
pub(crate) struct AllQueries {
    pub(crate) tryreads: List<Queries>,
    pub(crate) trywrites: List<Queries>,
    pub(crate) empties: List<Queries>,
    pub(crate) fulls: List<Queries>,
}

/// The queries of all kinds on the first `channels` channels, given what each access gave. `OutOfMemory` where memory ran out.
pub(crate) fn all_queries(
    alloc: Global,
    channels: usize,
    log: &[LoggedAccess],
) -> Result<AllQueries, OutOfMemory>
    requires inside { All (λ a. a.event.channel < channels) log.now }
    ensures { IfOk result (AreQueries channels log.now) }
{
    Ok(AllQueries {
        tryreads: queries_at(alloc, channels, Kind::TryRead, log)?,
        trywrites: queries_at(alloc, channels, Kind::TryWrite, log)?,
        empties: queries_at(alloc, channels, Kind::Empty, log)?,
        fulls: queries_at(alloc, channels, Kind::Full, log)?,
    })
}

/// One entry for each of `channels` channels: its queries of one kind, given what each access gave. `OutOfMemory` where memory ran
/// out.
fn queries_at(
    alloc: Global,
    channels: usize,
    kind: Kind,
    log: &[LoggedAccess],
) -> Result<List<Queries>, OutOfMemory>
    requires inside { All (λ a. a.event.channel < channels) log.now }
    ensures { IfOk result (AreAsked channels kind log.now) }
{
    let mut queries = no_queries(alloc, channels)?;
    for access in log {
        if same_query(kind, access.event.kind) {
            count_query(&mut queries, access);
        }
    }
    Ok(queries)
}

/// One entry for each of `channels` channels: no query yet. `OutOfMemory` where memory ran out.
fn no_queries(alloc: Global, channels: usize) -> Result<List<Queries>, OutOfMemory>
    ensures { IfOk result (λ queries. queries ≡ replicate channels unasked) }
{
    let mut queries = List::with_room(alloc, channels as u64)?;
    for _at in 0..channels {
        queries.push(Queries {
            owner: 0,
            tried: 0,
            missed: 0,
        })?;
    }
    Ok(queries)
}

/// Whether an access is a query of this kind. It is false for a read or a write.
fn same_query(kind: Kind, other: Kind) -> bool
    ensures { result ≡ form.same_query kind other }
{
    !kind.is_blocking() && kind == other
}

/// Counts one more query, at its channel.
fn count_query(queries: &mut List<Queries>, access: &LoggedAccess)
    requires inside { access.now.event.channel < length queries.old }
    requires few_tried { (slice_index_or queries.old access.now.event.channel unasked).tried + 1 < 2 ^ 64 }
    requires few_missed { (slice_index_or queries.old access.now.event.channel unasked).missed + 1 < 2 ^ 64 }
    ensures { queries.new ≡ slice_set queries.old access.now.event.channel
        (with_query access.now (slice_index_or queries.old access.now.event.channel unasked)) }
{
    let of = &mut queries.as_mut_slice()[access.event.channel as usize];
    of.owner = access.event.module;
    of.tried += 1;
    of.missed += is_missed(access) as u64;
}

/// Whether an access is a missed query: a query that was not possible in its clock.
pub fn is_missed(access: &LoggedAccess) -> bool
    ensures { result ≡ form.is_missed access.now }
{
    match access.event.kind {
        Kind::Read | Kind::Write => false,
        Kind::TryRead | Kind::TryWrite => !access.outcome,
        Kind::Empty | Kind::Full => access.outcome,
    }
}

/// Adds the lines of a module's queries.
pub(crate) fn print_queries(
    text: &mut List<u8>,
    design: &Design,
    owner: u32,
    all: &AllQueries,
) -> Result<(), OutOfMemory>
    requires owner { owner < length design.now.modules }
    requires channels { HaveChannels (length design.now.channels) all.now }
    requires few { length design.now.channels < 2 ^ 32 }
    ensures { OnOk result (text.new ≡ text.old ++ text_of_lines (form.at_each_query (length design.now.channels)
        (queries_in design.now owner all.now))) }
{
    let name = module_name(design, owner);
    let count = design.channels.len() as u32;
    for number in 0..count {
        let channel = channel_name(design, number);
        let tryreads = queries_on(&all.tryreads, number);
        let trywrites = queries_on(&all.trywrites, number);
        let empties = queries_on(&all.empties, number);
        let fulls = queries_on(&all.fulls, number);
        print_own(text, owner, name, Kind::TryRead, channel, tryreads)?;
        print_own(text, owner, name, Kind::TryWrite, channel, trywrites)?;
        print_own(text, owner, name, Kind::Empty, channel, empties)?;
        print_own(text, owner, name, Kind::Full, channel, fulls)?;
    }
    Ok(())
}

/// The queries on this channel, out of the list for all channels.
fn queries_on(queries: &List<Queries>, channel: u32) -> Queries
    requires { channel < length queries.now }
    ensures { result ≡ slice_index_or queries.now channel unasked }
{
    queries.as_slice()[channel as usize]
}

/// Adds the line of these queries, if they are the module's.
fn print_own(
    text: &mut List<u8>,
    owner: u32,
    name: &[u8],
    kind: Kind,
    channel: &[u8],
    of: Queries,
) -> Result<(), OutOfMemory>
    ensures { OnOk result (text.new ≡ text.old ++ text_of_lines (own_queries owner name.now kind channel.now of)) }
{
    if of.owner == owner && of.tried != 0 {
        return print_query(text, name, kind, channel, of);
    }
    Ok(())
}

/// Adds the line of these queries, if there are any.
fn print_query(
    text: &mut List<u8>,
    name: &[u8],
    kind: Kind,
    channel: &[u8],
    of: Queries,
) -> Result<(), OutOfMemory>
    requires { of.tried ≢ 0 }
    ensures { OnOk result (text.new ≡ text.old ++ text_of_lines (form.query_lines name.now kind channel.now of.tried of.missed)) }
{
    text.extend_from_slice(b"poll")?;
    push_token(text, name)?;
    push_token(text, kind_word(kind))?;
    push_token(text, channel)?;
    push_value(text, of.tried)?;
    push_value(text, of.missed)?;
    text.push(b'\n')
}
