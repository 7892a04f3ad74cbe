//! The text of `stalls`.
ghost use Rattle.std.specs.Prelude.{◌≡◌, ◌++◌, ◌<◌, is_some, length, IfOk, OnOk};
ghost use Rattle.std.specs.List.{flat_map, range_with_len};
ghost use Rattle.stall_text.specs.{last_clock, text_of_lines, module_lines, ArePollsOf};
ghost use Rattle.stall_text.specs.StallText as form;

use crate::causes::{clocks_of, print_causes, print_clocks, still_clocks};
use crate::fifos::print_fifos;
use crate::polls::{Polls, polls_if, print_polling};
use crate::ports::print_ports;
use flow_word::{List, OutOfMemory, Side};
use report_text::{module_name, print_verdict};
use sim_core::FinalCore;
use std::alloc::Global;

/// The text of `stalls` for a final core's plan: in how many clocks each module moves and stalls, the causes of its stalls, the
/// elements at its ports, and how full each FIFO is; with `polls` also how each module polls.
///
/// It takes memory for the spans of one module at a time, for the clocks of one FIFO's pushes and pops at a time, for two numbers for
/// each channel, and for the text; with `polls` also for what each access gave, and for a few numbers for each module and each channel.
/// `OutOfMemory` where memory ran out.
pub fn stalls_text(
    alloc: Global,
    core: &FinalCore<'_>,
    polls: bool,
) -> Result<List<u8>, OutOfMemory>
    ensures { IfOk result (λ text. text ≡ form.stalls_text polls core.now.plan) }
{
    let polled = polls_if(alloc, polls, core)?;
    let verdict = core.verdict();
    let clock = verdict.clock();
    let mut text = List::from_slice(alloc, b"stalls\n")?;
    print_verdict(&mut text, verdict)?;
    print_modules(alloc, &mut text, core, clock, &polled)?;
    print_fifos(alloc, &mut text, core, clock)?;
    Ok(text)
}

/// Adds the lines of each module, and how it polls if that is asked for.
fn print_modules(
    alloc: Global,
    text: &mut List<u8>,
    core: &FinalCore<'_>,
    clock: u64,
    polls: &Option<Polls>,
) -> Result<(), OutOfMemory>
    requires clock { clock ≡ last_clock core.now.plan }
    requires polls { ArePollsOf core.now.plan polls.now }
    ensures { OnOk result (text.new
        ≡ text.old ++ text_of_lines (flat_map (module_lines (is_some polls.now) core.now.plan)
        (range_with_len 0 (length core.now.plan.design.modules)))) }
{
    for owner in 0..core.modules() {
        print_module(alloc, text, core, owner, clock)?;
        print_ports(alloc, text, core, owner)?;
        print_polling(text, &core.plan().design, owner, polls)?;
    }
    Ok(())
}

/// Adds the lines of a module's clocks and of the causes of its stalls.
fn print_module(
    alloc: Global,
    text: &mut List<u8>,
    core: &FinalCore<'_>,
    owner: u32,
    clock: u64,
) -> Result<(), OutOfMemory>
    requires owner { owner < length core.now.plan.design.modules }
    requires clock { clock ≡ last_clock core.now.plan }
    ensures { OnOk result (text.new ≡ text.old ++ text_of_lines (form.clock_lines core.now.plan owner)) }
{
    core.agrees();
    let design = &core.plan().design;
    let channels = design.channels.as_slice().len();
    let spans = core.spans(alloc, owner, clock)?;
    let empty = still_clocks(alloc, channels, Side::Pop, spans.as_slice())?;
    let full = still_clocks(alloc, channels, Side::Push, spans.as_slice())?;
    print_clocks(
        text,
        module_name(design, owner),
        clocks_of(spans.as_slice()),
    )?;
    print_causes(text, design, owner, empty.as_slice(), full.as_slice())
}
