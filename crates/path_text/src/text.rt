//! The text on the latency of a core's plan.
ghost use Rattle.std.specs.Prelude.{◌≡◌, ◌++◌, ◌<◌, ◌^◌, [], IfOk, OnOk, if◌then◌else◌, length, sum_by};
ghost use Rattle.path_text.specs.{verdict as verdict_of, clock_of as clock_in, log_of, HasSpans, count_lines, link_clocks, clocks_waiting};
ghost use Rattle.path_text.specs.{AreLinksOf, ArePolledIn, text_of_lines};
ghost use Rattle.path_text.specs.PathText as form;

use crate::counts::{clocks_by_module, crossings_by_channel, polls_by_channel, waiting_by_channel};
use crate::lines::{print_channels, print_links, print_modules};
use crate::link::Chain;
use crate::walk::find_path;
use flow_design::Design;
use flow_word::{List, OutOfMemory, Side};
use report_text::print_verdict;
use sim_core::{FinalCore, LoggedAccess};
use std::alloc::Global;
use timelines::Span;

/// The text on what decides the latency of a final core's plan: the modules in which the chain back from its end spends clocks, and
/// the channels that it crosses. With `events` it also has the links of the chain. With `polls` the chain goes back from a query
/// that ended a poll to the push of the element that the query found.
///
/// It takes memory for the report without its events, for the spans of all modules, for the links, for a few numbers of each module
/// and each channel, and for the text; with `polls` also for what each access gave, and for the clocks in which each element moved.
/// `OutOfMemory` where memory ran out.
pub fn path_text(
    alloc: Global,
    core: &FinalCore<'_>,
    events: bool,
    polls: bool,
) -> Result<List<u8>, OutOfMemory>
    ensures { IfOk result (λ text. text ≡ form.path_text events polls core.now.plan) }
{
    let modules = core.modules();
    let report = core.report(alloc, false)?;
    let verdict = report.verdict;
    let spans = all_spans(alloc, core, modules, verdict.clock())?;
    let log = log_if(alloc, core, polls)?;
    let path = find_path(alloc, core.plan(), spans.as_slice(), log.as_slice())?;
    let mut text = List::from_slice(alloc, b"path\n")?;
    print_verdict(&mut text, verdict)?;
    print_counts(alloc, &mut text, &core.plan().design, &path)?;
    print_links(
        &mut text,
        &core.plan().design,
        events,
        path.links.as_slice(),
    )?;
    Ok(text)
}

/// What each access of a final core's plan gave, if asked for; otherwise an empty log. `OutOfMemory` where memory ran out.
fn log_if(
    alloc: Global,
    core: &FinalCore<'_>,
    asked: bool,
) -> Result<List<LoggedAccess>, OutOfMemory>
    ensures { IfOk result (λ log. log ≡ (if asked then log_of core.now.plan else [])) }
{
    if asked {
        core.access_log(alloc)
    } else {
        Ok(List::new(alloc))
    }
}

/// One entry per module: its spans below the clock of the plan's verdict. `OutOfMemory` where memory ran out.
fn all_spans(
    alloc: Global,
    core: &FinalCore<'_>,
    modules: u32,
    clock: u64,
) -> Result<List<List<Span>>, OutOfMemory>
    requires count { modules ≡ length core.now.plan.design.modules }
    requires clock { clock ≡ clock_in (verdict_of core.now.plan) }
    ensures { IfOk result (HasSpans core.now.plan clock) }
{
    let mut spans = List::with_room(alloc, modules as u64)?;
    for owner in 0..modules {
        spans.push(core.spans(alloc, owner, clock)?)?;
    }
    Ok(spans)
}

/// Adds the lines of the modules in which a chain spends clocks, and of the channels that it crosses. After `OutOfMemory` the text
/// may have some of them.
fn print_counts(
    alloc: Global,
    text: &mut List<u8>,
    design: &Design,
    path: &Chain,
) -> Result<(), OutOfMemory>
    requires modules { length design.now.modules < 2 ^ 32 }
    requires channels { length design.now.channels < 2 ^ 32 }
    requires links { AreLinksOf design.now path.now.links }
    requires polls { ArePolledIn design.now path.now.polls }
    requires spent { sum_by link_clocks path.now.links < 2 ^ 64 }
    requires waited { sum_by clocks_waiting path.now.polls < 2 ^ 64 }
    ensures { OnOk result (text.new ≡ text.old ++ text_of_lines (count_lines design.now path.now.links path.now.polls)) }
{
    let channels = design.channels.len();
    let links = path.links.as_slice();
    let polls = path.polls.as_slice();
    let clocks = clocks_by_module(alloc, design.modules.len(), links)?;
    let popped = crossings_by_channel(alloc, channels, Side::Pop, links)?;
    let pushed = crossings_by_channel(alloc, channels, Side::Push, links)?;
    let polled = polls_by_channel(alloc, channels, polls)?;
    let waited = waiting_by_channel(alloc, channels, polls)?;
    print_modules(text, design, clocks.as_slice())?;
    print_channels(
        text,
        design,
        popped.as_slice(),
        pushed.as_slice(),
        polled.as_slice(),
        waited.as_slice(),
    )
}
