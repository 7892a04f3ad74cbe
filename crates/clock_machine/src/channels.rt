//! What is possible on the contents of the channels, and the replies.
ghost use Rattle.std.specs.Prelude.{◌≡◌, ◌++◌, ◌∷◌, true, false, length, slice_index, [], if◌then◌else◌, Some, None, is_some, IfOk, OnOk};
ghost use Rattle.std.specs.List.{list_any};
ghost use Rattle.clock_machine.specs.{is_fifo, kind_at, delay_at, contents_of, front, is_empty, all_ready, is_full, can_take, stalls};
ghost use Rattle.clock_machine.specs.{reply, answered, outcomes_in, popped, pushed};
ghost use Rattle.flow_design.specs.declared.state.Reply.TheVariants.{Flag};

use crate::memo::{PushedValue, Traffic};
use crate::standing::AtClock;
use flow_design::{CheckedPlan, Element, Reply, Request};
use flow_word::{Flags, Kind, OutOfMemory, Queue, Side};

/// How many elements a channel holds.
#[inline(always)]
fn fill_of(contents: &[Queue<Element>], channel: u32) -> u64
    ensures { result ≡ length (contents_of contents.now channel) }
{
    let channel = channel as usize;
    if channel < contents.len() {
        contents[channel].len()
    } else {
        0
    }
}

/// Whether a channel holds nothing that can be popped in this clock.
#[inline(always)]
fn is_empty(clock: u64, contents: &[Queue<Element>], channel: u32) -> bool
    ensures { result ≡ is_empty clock (contents_of contents.now channel) }
{
    let channel = channel as usize;
    if channel < contents.len() {
        match contents[channel].front() {
            Some(element) => clock < element.since,
            None => true,
        }
    } else {
        true
    }
}

/// The value at a channel's front. `None` where nothing can be popped in this clock.
#[inline(always)]
fn ready(clock: u64, contents: &[Queue<Element>], channel: u32) -> Option<u64>
    ensures { result ≡ (if is_empty clock (contents_of contents.now channel)
        then None else Some (front (contents_of contents.now channel))) }
{
    let channel = channel as usize;
    if channel < contents.len() {
        match contents[channel].front() {
            Some(element) if element.since <= clock => Some(element.value),
            _ => None,
        }
    } else {
        None
    }
}

/// The delay of a channel, in clocks: 1 where it is no FIFO, or there is no such channel.
#[inline(always)]
pub fn delay(plan: &CheckedPlan, channel: u32) -> u64
    ensures { result ≡ delay_at plan.now channel }
{
    let channels = plan.channels();
    let channel = channel as usize;
    if channel < channels.len() {
        channels[channel].kind.delay()
    } else {
        1
    }
}

/// Whether a channel is a FIFO.
#[inline(always)]
fn is_fifo(plan: &CheckedPlan, channel: u32) -> bool
    ensures { result ≡ is_fifo (kind_at plan.now channel) }
{
    let channels = plan.channels();
    let channel = channel as usize;
    channel < channels.len() && channels[channel].kind.is_fifo()
}

/// The depth of a channel, or 0 where there is no such channel.
#[inline(always)]
fn depth(plan: &CheckedPlan, channel: u32) -> u64
    ensures { result ≡ slice_index plan.now.depths channel }
{
    let depths = plan.depths();
    let channel = channel as usize;
    if channel < depths.len() {
        depths[channel]
    } else {
        0
    }
}

/// Whether a channel is a FIFO that holds at least as many elements as its depth.
#[inline(always)]
fn is_full(plan: &CheckedPlan, contents: &[Queue<Element>], channel: u32) -> bool
    ensures { result ≡ is_full plan.now channel (contents_of contents.now channel) }
{
    depth(plan, channel) <= fill_of(contents, channel) && is_fifo(plan, channel)
}

/// Whether a channel has, in this clock, an element to pop, or a place for a push, by the given side.
#[inline(always)]
fn is_possible(at: &AtClock<'_>, side: Side, channel: u32) -> bool
    ensures { result ≡ can_take at.now.of.now.plan.now at.now.clock at.now.contents.now side channel }
{
    match side {
        Side::Pop => !is_empty(at.clock, at.contents, channel),
        Side::Push => !is_full(at.of.plan, at.contents, channel),
    }
}

/// Whether an operation blocks and cannot be done in this clock.
#[inline(always)]
pub fn stalls(at: &AtClock<'_>, request: &Request) -> bool
    ensures { result ≡ stalls at.now.of.now.plan.now at.now.clock at.now.contents.now request.now }
{
    let kind = request.kind;
    kind.is_blocking() && !is_possible(at, kind.side(), request.channel)
}

/// Whether a channel would have an element to pop, or a place for a push, if every element could be popped. No clock matters for
/// this.
fn is_possible_ever(
    plan: &CheckedPlan,
    contents: &[Queue<Element>],
    side: Side,
    channel: u32,
) -> bool
    ensures { result ≡ can_take plan.now 0 (all_ready contents.now) side channel }
{
    match side {
        Side::Pop => 0 < fill_of(contents, channel),
        Side::Push => !is_full(plan, contents, channel),
    }
}

/// Whether an operation blocks and could not be done even if every element could be popped.
pub fn stalls_ever(plan: &CheckedPlan, contents: &[Queue<Element>], request: &Request) -> bool
    ensures { result ≡ stalls plan.now 0 (all_ready contents.now) request.now }
{
    let kind = request.kind;
    kind.is_blocking() && !is_possible_ever(plan, contents, kind.side(), request.channel)
}

/// Whether one of these operations blocks and could not be done even if every element could be popped.
pub fn any_stalls_ever(
    plan: &CheckedPlan,
    contents: &[Queue<Element>],
    requests: &[Request],
) -> bool
    ensures { result ≡ list_any (stalls plan.now 0 (all_ready contents.now)) requests.now }
{
    requests
        .iter()
        .any(|request| stalls_ever(plan, contents, request))
}

/// The reply to a query with this outcome, which is added to the outcomes.
#[inline(always)]
fn flag(outcomes: &mut Flags, outcome: bool) -> Result<Option<Reply>, OutOfMemory>
    ensures reply { IfOk result (λ reply. reply ≡ Some (Flag outcome)) }
    ensures outcomes { OnOk result (outcomes.new ≡ outcomes.old ++ outcome ∷ []) }
{
    outcomes.push(outcome)?;
    Ok(Some(Reply::Flag(outcome)))
}

/// The reply to an operation. `None` where it blocks and cannot be done. The outcome of a query is added to `outcomes`, and what the
/// operation pops or pushes to `traffic`. `OutOfMemory` where memory ran out.
#[tactic(auto, unfolding(lockstep_defs::specs::Channels::reply))]
#[inline(always)]
pub fn answer_one(
    at: &AtClock<'_>,
    request: &Request,
    outcomes: &mut Flags,
    traffic: &mut Traffic,
) -> Result<Option<Reply>, OutOfMemory>
    ensures reply { IfOk result (λ answer. answer ≡ (if stalls at.now.of.now.plan.now at.now.clock at.now.contents.now request.now
        then None else Some (reply at.now.of.now.plan.now at.now.clock at.now.contents.now request.now))) }
    ensures outcomes { IfOk result (λ answer. is_some answer ≡ true
        → outcomes.new ≡ outcomes.old ++ outcomes_in (answered at.now.of.now.plan.now at.now.clock at.now.contents.now request.now ∷ [])) }
    ensures pops { IfOk result (λ answer. is_some answer ≡ true → traffic.new.pops
        ≡ traffic.old.pops ++ popped (answered at.now.of.now.plan.now at.now.clock at.now.contents.now request.now ∷ [])) }
    ensures pushes { IfOk result (λ answer. is_some answer ≡ true → traffic.new.pushes
        ≡ traffic.old.pushes ++ pushed (answered at.now.of.now.plan.now at.now.clock at.now.contents.now request.now ∷ [])) }
    ensures no_outcome { IfOk result (λ answer. is_some answer ≡ false → outcomes.new ≡ outcomes.old) }
    ensures no_pop { IfOk result (λ answer. is_some answer ≡ false → traffic.new.pops ≡ traffic.old.pops) }
    ensures no_push { IfOk result (λ answer. is_some answer ≡ false → traffic.new.pushes ≡ traffic.old.pushes) }
{
    let Request { channel, value, .. } = *request;
    match request.kind {
        Kind::Read => match ready(at.clock, at.contents, channel) {
            None => Ok(None),
            Some(value) => {
                traffic.pops.push(channel)?;
                Ok(Some(Reply::Value(value)))
            }
        },
        Kind::Write => {
            if is_full(at.of.plan, at.contents, channel) {
                return Ok(None);
            }
            traffic.pushes.push(PushedValue { channel, value })?;
            Ok(Some(Reply::Done))
        }
        Kind::TryRead => match ready(at.clock, at.contents, channel) {
            None => {
                outcomes.push(false)?;
                Ok(Some(Reply::Missed))
            }
            Some(value) => {
                outcomes.push(true)?;
                traffic.pops.push(channel)?;
                Ok(Some(Reply::Took(value)))
            }
        },
        Kind::TryWrite => {
            let free = !is_full(at.of.plan, at.contents, channel);
            if free {
                traffic.pushes.push(PushedValue { channel, value })?;
            }
            flag(outcomes, free)
        }
        Kind::Empty => flag(outcomes, is_empty(at.clock, at.contents, channel)),
        Kind::Full => flag(outcomes, is_full(at.of.plan, at.contents, channel)),
    }
}
