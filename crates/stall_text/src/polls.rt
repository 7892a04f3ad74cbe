//! How modules poll.
ghost use Rattle.std.specs.Prelude.{◌≡◌, ◌<◌, ◌^◌, ◌++◌, length, replicate, slice_index_or, slice_set, All, IfOk, IfSome, OnOk, is_some};
ghost use Rattle.stall_text.specs.{text_of_lines, polls_lines, ArePollings, ArePollsOf, HavePolls, kept_lines, polling_lines, unpolled};
ghost use Rattle.stall_text.specs.{polled_so_far as polled, polling_with};

use crate::queries::{AllQueries, all_queries, is_missed, print_queries};
use flow_design::Design;
use flow_word::{List, OutOfMemory};
use report_text::{module_name, push_token, push_value};
use sim_core::{FinalCore, LoggedAccess};
use std::alloc::Global;

/// What is known of a module that may poll, after some of its accesses.
#[derive(Clone, Copy, Debug, PartialEq, Eq)]
pub(crate) struct Polling {
    /// In how many clocks the module polled, before its last clock with an access.
    pub(crate) before: u64,
    /// The module's last clock with an access. `None` where it had no access.
    pub(crate) last: Option<u64>,
    /// Whether each access of the module in its last clock with an access was a missed query.
    pub(crate) missing: bool,
}

/// How the modules of a design poll.
#[derive(Drop)]
pub(crate) struct Polls {
    /// How each module polls, in order.
    pub(crate) modules: List<Polling>,
    pub(crate) queries: AllQueries,
}

/// How the modules of a final core's plan poll. `None` where that is not asked for.
///
/// It takes memory for what each access gave, if it is asked for.
pub(crate) fn polls_if(
    alloc: Global,
    asked: bool,
    core: &FinalCore<'_>,
) -> Result<Option<Polls>, OutOfMemory>
    ensures asked { IfOk result (λ polls. is_some polls ≡ asked) }
    ensures polls { IfOk result (ArePollsOf core.now.plan) }
{
    if !asked {
        return Ok(None);
    }
    let modules = core.modules();
    let channels = core.plan().design.channels.as_slice().len();
    let log = core.access_log(alloc)?;
    Ok(Some(Polls {
        modules: pollings(alloc, modules, log.as_slice())?,
        queries: all_queries(alloc, channels, log.as_slice())?,
    }))
}

/// Adds the lines that tell how a module polls, if they are asked for.
pub(crate) fn print_polling(
    text: &mut List<u8>,
    design: &Design,
    owner: u32,
    polls: &Option<Polls>,
) -> Result<(), OutOfMemory>
    requires owner { owner < length design.now.modules }
    requires polls { IfSome polls.now (HavePolls design.now) }
    requires few { length design.now.channels < 2 ^ 32 }
    ensures { OnOk result (text.new ≡ text.old ++ text_of_lines (polling_lines design.now owner polls.now)) }
{
    match polls {
        Some(kept) => print_kept(text, design, owner, kept),
        None => Ok(()),
    }
}

/// Adds the lines that tell how a module polls.
fn print_kept(
    text: &mut List<u8>,
    design: &Design,
    owner: u32,
    kept: &Polls,
) -> Result<(), OutOfMemory>
    requires owner { owner < length design.now.modules }
    requires polls { HavePolls design.now kept.now }
    requires few { length design.now.channels < 2 ^ 32 }
    ensures { OnOk result (text.new ≡ text.old ++ text_of_lines (kept_lines design.now owner kept.now)) }
{
    let of = kept.modules.as_slice()[owner as usize];
    print_polls(text, module_name(design, owner), polled_so_far(of))?;
    print_queries(text, design, owner, &kept.queries)
}

/// One entry for each of `modules` modules: how it polls, given what each access gave. `OutOfMemory` where memory ran out.
fn pollings(alloc: Global, modules: u32, log: &[LoggedAccess]) -> Result<List<Polling>, OutOfMemory>
    requires inside { All (λ a. a.event.module < modules) log.now }
    ensures { IfOk result (ArePollings modules log.now) }
{
    let mut pollings = no_pollings(alloc, modules)?;
    for access in log {
        count_access(&mut pollings, access);
    }
    Ok(pollings)
}

/// One entry for each of `modules` modules: what is known of its polls before any access. `OutOfMemory` where memory ran out.
fn no_pollings(alloc: Global, modules: u32) -> Result<List<Polling>, OutOfMemory>
    ensures { IfOk result (λ pollings. pollings ≡ replicate modules unpolled) }
{
    let mut pollings = List::with_room(alloc, modules as u64)?;
    for _at in 0..modules {
        pollings.push(Polling {
            before: 0,
            last: None,
            missing: false,
        })?;
    }
    Ok(pollings)
}

/// Counts one more access, at its module.
fn count_access(pollings: &mut List<Polling>, access: &LoggedAccess)
    requires inside { access.now.event.module < length pollings.old }
    requires few { polled (slice_index_or pollings.old access.now.event.module unpolled) < 2 ^ 64 }
    ensures { pollings.new ≡ slice_set pollings.old access.now.event.module
        (polling_with (slice_index_or pollings.old access.now.event.module unpolled) access.now) }
{
    let of = &mut pollings.as_mut_slice()[access.event.module as usize];
    *of = polling_with(*of, access);
}

/// What is known of a module after one more access.
fn polling_with(of: Polling, access: &LoggedAccess) -> Polling
    requires { polled of < 2 ^ 64 }
    ensures { result ≡ polling_with of access.now }
{
    let clock = access.event.cycle;
    let missed = is_missed(access);
    match of.last {
        Some(last) if last == clock => Polling {
            before: of.before,
            last: of.last,
            missing: of.missing && missed,
        },
        Some(_) | None => Polling {
            before: polled_so_far(of),
            last: Some(clock),
            missing: missed,
        },
    }
}

/// In how many clocks the module polled so far.
fn polled_so_far(of: Polling) -> u64
    requires { polled of < 2 ^ 64 }
    ensures { result ≡ polled of }
{
    of.before + of.missing as u64
}

/// Adds the line that tells in how many clocks a module polls, if it polls in any.
fn print_polls(text: &mut List<u8>, name: &[u8], clocks: u64) -> Result<(), OutOfMemory>
    ensures { OnOk result (text.new ≡ text.old ++ text_of_lines (polls_lines name.now clocks)) }
{
    if clocks == 0 {
        return Ok(());
    }
    text.extend_from_slice(b"polls")?;
    push_token(text, name)?;
    push_value(text, clocks)?;
    text.push(b'\n')
}
