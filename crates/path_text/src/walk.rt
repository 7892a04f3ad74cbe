//! The walk back along the chain.
ghost use Rattle.std.specs.Prelude.{◌≡◌, ℕ, ◌<◌, ◌≤◌, ◌++◌, filter, length, IfOk, IfSome, OnOk};
ghost use Rattle.path_text.specs.{Plan, FitsEngine, clock_of, lag_in, verdict, owners_at, HasSpans, IsLastMove, before_link, last_with};
ghost use Rattle.path_text.specs.{AreChronological, by_find, find_clock, lies_in, AreAccesses, before_polled as goes_on_at};
ghost use Rattle.path_text.specs.{from_query as begins_with, if_some, latest_one as latest_of, links_in, polled_path, polls_along};
ghost use Rattle.flow_word.specs.declared.access.Side.TheVariants as side;

use crate::finds::{Find, finds};
use crate::link::{Chain, Polled, PolledLink};
use crate::owners::owners;
use crate::search::latest;
use crate::spans::{link_to, moving_end};
use depth_order::Link;
use flow_design::Plan;
use flow_word::{List, OutOfMemory, Side};
use sim_core::LoggedAccess;
use std::alloc::Global;
use timelines::Span;

/// A module, and a clock in which it moves.
#[derive(Clone, Copy, Debug, PartialEq, Eq)]
pub struct At {
    pub module: u32,
    pub clock: u64,
}

/// The chain that decides the latency of a plan, read from the spans of its modules below the verdict's clock. It follows polls
/// where `log` is what each access gave, and no polls where `log` is empty.
///
/// It takes memory for the links, for two numbers of each channel, and with a log for the clocks in which each element moved and
/// for the queries that found an element. It looks at each access once, at each such query at most once, and for each link at a few
/// spans. `OutOfMemory` where memory ran out.
pub fn find_path(
    alloc: Global,
    plan: &Plan,
    spans: &[List<Span>],
    log: &[LoggedAccess],
) -> Result<Chain, OutOfMemory>
    requires fits { FitsEngine plan.now }
    requires spans { HasSpans plan.now (clock_of (verdict plan.now)) spans.now }
    requires log { AreAccesses plan.now log.now }
    ensures links { IfOk result (λ path. path.links ≡ links_in (polled_path plan.now log.now (clock_of (verdict plan.now)))) }
    ensures polls { IfOk result (λ path. path.polls ≡ polls_along (polled_path plan.now log.now (clock_of (verdict plan.now)))) }
{
    let kept = finds(alloc, plan, log)?;
    let poppers = owners(alloc, plan, Side::Pop)?;
    let pushers = owners(alloc, plan, Side::Push)?;
    let mut links = List::new(alloc);
    let mut polls = List::new(alloc);
    let mut next = last_move(spans);
    while let Some(at) = next {
        let link = link_to(spans[at.module as usize].as_slice(), at.module, at.clock);
        let step = polled_link(kept.as_slice(), link);
        links.push(step.link)?;
        push_poll(&mut polls, step.polled)?;
        next = before_polled(plan, poppers.as_slice(), pushers.as_slice(), &step);
    }
    Ok(Chain { links, polls })
}

/// The link from the query on that ended the last poll of its module in its clocks; the whole link where no poll ended there.
fn polled_link(finds: &[Find], link: Link) -> PolledLink
    requires { AreChronological finds.now }
    ensures { result ≡ by_find link (latest_of find_clock (filter (lies_in link) finds.now)) }
{
    match latest(finds, &link) {
        Some(find) => from_query(link, find),
        None => PolledLink { link, polled: None },
    }
}

/// The part of a link that begins with a query which found an element.
fn from_query(link: Link, find: Find) -> PolledLink
    ensures { result ≡ begins_with link find.access find.pushed }
{
    let found = find.access.event.cycle;
    PolledLink {
        link: Link {
            module: link.module,
            first: found,
            last: link.last,
            crossed: None,
        },
        polled: Some(Polled {
            channel: find.access.event.channel,
            pushed: find.pushed,
            found,
        }),
    }
}

/// Adds what was polled for, if anything was. `OutOfMemory` where memory ran out.
fn push_poll(polls: &mut List<Polled>, polled: Option<Polled>) -> Result<(), OutOfMemory>
    ensures { OnOk result (polls.new ≡ polls.old ++ if_some polled) }
{
    match polled {
        Some(poll) => polls.push(poll),
        None => Ok(()),
    }
}

/// The last clock in which a module moves, and the first module that moves in it. `None` where no module moves.
fn last_move(spans: &[List<Span>]) -> Option<At>
    requires { length spans.now < u32.MAX }
    ensures { (p : Plan) (end : ℕ) → HasSpans p end spans.now → IsLastMove p end (length spans.now) result }
{
    let mut last = None;
    for owner in 0..spans.len() as u32 {
        last = with_module(last, owner, moving_end(spans[owner as usize].as_slice()));
    }
    last
}

/// The last move after one more module is looked at. `end` is the clock after that module's last move, if it moves at all.
fn with_module(last: Option<At>, owner: u32, end: Option<u64>) -> Option<At>
    ensures { result ≡ last_with last owner end }
{
    let Some(end) = end else {
        return last;
    };
    let clock = end.saturating_sub(1);
    match last {
        Some(at) if clock <= at.clock => last,
        Some(_) | None => Some(At {
            module: owner,
            clock,
        }),
    }
}

/// Where the chain goes on before a link: at the push of what was polled for, or else where it goes on without polls. `None` where
/// the chain ends.
fn before_polled(plan: &Plan, poppers: &[u32], pushers: &[u32], step: &PolledLink) -> Option<At>
    requires poppers { poppers.now ≡ owners_at plan.now side.Pop }
    requires pushers { pushers.now ≡ owners_at plan.now side.Push }
    requires polled { IfSome step.now.polled (λ q. q.channel < length plan.now.design.channels) }
    requires crossed { IfSome step.now.link.crossed (λ a. a.channel < length plan.now.design.channels) }
    requires later { IfSome step.now.link.crossed (λ a. lag_in plan.now a.side a.channel ≤ step.now.link.first) }
    ensures { result ≡ goes_on_at plan.now step.now }
{
    match step.polled {
        Some(polled) => Some(At {
            module: pushers[polled.channel as usize],
            clock: polled.pushed,
        }),
        None => before_link(plan, poppers, pushers, &step.link),
    }
}

/// Where the chain goes on before a link without polls: at the other side of the crossed port. `None` where no port is crossed.
fn before_link(plan: &Plan, poppers: &[u32], pushers: &[u32], link: &Link) -> Option<At>
    requires poppers { poppers.now ≡ owners_at plan.now side.Pop }
    requires pushers { pushers.now ≡ owners_at plan.now side.Push }
    requires crossed { IfSome link.now.crossed (λ a. a.channel < length plan.now.design.channels) }
    requires later { IfSome link.now.crossed (λ a. lag_in plan.now a.side a.channel ≤ link.now.first) }
    ensures { result ≡ before_link plan.now link.now }
{
    let port = link.crossed?;
    let channel = port.channel as usize;
    Some(match port.side {
        Side::Pop => At {
            module: pushers[channel],
            clock: link.first - plan.design.channels.as_slice()[channel].kind.delay(),
        },
        Side::Push => At {
            module: poppers[channel],
            clock: link.first - 1,
        },
    })
}
