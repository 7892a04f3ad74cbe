//! The rules of commands: which options and positionals each one takes.
ghost use Rattle.std.specs.Prelude.{◌≡◌, ◌≤◌, ◌^◌, ℕ, IfSome, Some, option_map};
ghost use Rattle.cli_words.specs.{AreLimits, asked, IsInRange, IsLimit, command_of, gen_of, has_options, limit_in, name_of, no_more};
ghost use Rattle.cli_words.specs.{number_in, options_alone, options_of, sweep_of, tells_events, scale_of, tells_polls, with_slack};
ghost use Rattle.cli_words.specs.{without_option, further_positionals, said_of, text_of};

use crate::parser::Given;
use crate::{Command, Options, ScaledTask, SessionTask, Simulator, ViewName};
use flow_design::limits::Scale;
use flow_word::read_number;

/// The greatest cycle limit, in clocks.
const MOST_CYCLES: u64 = 1_000_000_000_000_000;

/// The greatest slack, in clocks.
const MOST_SLACK: u64 = 1_000_000_000_000_000;

/// The greatest seed of a generated session.
const MOST_SEED: u64 = 65_535;

/// The most modules of a generated session.
const MOST_MODULES: u64 = 64;

/// The greatest depth of a sweep, in elements.
const MOST_SWEPT: u64 = 64;

/// The name of a command, which is the first positional.
#[derive(Clone, Copy)]
enum CommandName {
    Simulate(Simulator),
    Check,
    Gen,
    Advise,
    Show(ViewName),
    Order,
    Sweep,
    Size,
    Least,
}

/// The command that the options and positionals are. `None` where a rule refuses them.
pub fn command_of(given: &Given<'_>) -> Option<Command>
    ensures command { result ≡ command_of (said_of given.now) }
    ensures range { IfSome result IsInRange }
{
    match name_of(given.command?)? {
        CommandName::Simulate(by) => {
            let options = options_alone(given, true, false)?;
            Some(asked(given, SessionTask::Simulate(by, options)))
        }
        CommandName::Check => bare(given, SessionTask::Check),
        CommandName::Gen if given.large || has_options(given) => None,
        CommandName::Gen => gen_of(given),
        CommandName::Advise => {
            let options = options_alone(given, false, false)?;
            Some(asked(given, SessionTask::Advise(options)))
        }
        CommandName::Show(view) => {
            let options = options_alone(given, tells_events(view), tells_polls(view))?;
            Some(asked(given, SessionTask::Show(view, options)))
        }
        CommandName::Order => bare(given, SessionTask::Order),
        CommandName::Sweep => sweep_of(given),
        CommandName::Size => {
            let (slack, options) = with_slack(given)?;
            Some(asked(given, SessionTask::Size { slack, options }))
        }
        CommandName::Least => {
            let (slack, options) = with_slack(given)?;
            Some(asked(given, SessionTask::Least { slack, options }))
        }
    }
}

/// The command with this name. `None` where there is none.
fn name_of(word: &str) -> Option<CommandName>
    ensures { result ≡ name_of word.now }
{
    match word {
        "run" => Some(CommandName::Simulate(Simulator::Threads)),
        "alone" => Some(CommandName::Simulate(Simulator::Alone)),
        "clock" => Some(CommandName::Simulate(Simulator::Clock)),
        "check" => Some(CommandName::Check),
        "gen" => Some(CommandName::Gen),
        "advise" => Some(CommandName::Advise),
        "wave" => Some(CommandName::Show(ViewName::Wave)),
        "log" => Some(CommandName::Show(ViewName::Log)),
        "stalls" => Some(CommandName::Show(ViewName::Stalls)),
        "path" => Some(CommandName::Show(ViewName::Path)),
        "trace" => Some(CommandName::Show(ViewName::Trace)),
        "order" => Some(CommandName::Order),
        "sweep" => Some(CommandName::Sweep),
        "size" => Some(CommandName::Size),
        "least" => Some(CommandName::Least),
        _ => None,
    }
}

/// The scale: `Large` where `--large` is given.
fn scale_of(given: &Given<'_>) -> Scale
    ensures { result ≡ scale_of (said_of given.now) }
{
    if given.large {
        Scale::Large
    } else {
        Scale::Standard
    }
}

/// The command that asks for this task.
fn asked(given: &Given<'_>, task: SessionTask) -> Command
    ensures { result ≡ asked (said_of given.now) task }
{
    Command::Of(ScaledTask {
        scale: scale_of(given),
        task,
    })
}

/// Whether an option other than `--large` is given.
fn has_options(given: &Given<'_>) -> bool
    ensures { result ≡ has_options (said_of given.now) }
{
    given.events
        || given.polls
        || given.cycles.is_some()
        || given.ops.is_some()
        || given.slack.is_some()
}

/// The command that asks for a task which takes no option but `--large`, and no further positional. `None` where more is given.
fn bare(given: &Given<'_>, task: SessionTask) -> Option<Command>
    ensures command { result ≡ without_option (said_of given.now) (no_more (further_positionals given.now)
        (Some (asked (said_of given.now) task))) }
    ensures same { IfSome result (λ found. found ≡ asked (said_of given.now) task) }
{
    if has_options(given) || given.second.is_some() {
        return None;
    }
    Some(asked(given, task))
}

/// The options of a command that takes no further positional and no `--slack`, and perhaps `--events` and `--polls`. `None` where
/// more is given, or a limit is out of its bounds.
fn options_alone(given: &Given<'_>, takes_events: bool, takes_polls: bool) -> Option<Options>
    ensures options { result ≡ options_alone takes_events takes_polls (said_of given.now) (further_positionals given.now) }
    ensures range { IfSome result (AreLimits (scale_of (said_of given.now))) }
{
    let untaken = given.events && !takes_events || given.polls && !takes_polls;
    if given.second.is_some() || untaken || given.slack.is_some() {
        return None;
    }
    options_of(given)
}

/// Whether a view takes `--events`.
fn tells_events(view: ViewName) -> bool
    ensures { result ≡ tells_events view }
{
    matches!(view, ViewName::Path)
}

/// Whether a view takes `--polls`.
fn tells_polls(view: ViewName) -> bool
    ensures { result ≡ tells_polls view }
{
    matches!(view, ViewName::Stalls | ViewName::Path)
}

/// The options that are given. `None` where a limit is out of its bounds; those of the operation limit depend on the scale.
fn options_of(given: &Given<'_>) -> Option<Options>
    ensures options { result ≡ options_of (said_of given.now) }
    ensures range { IfSome result (AreLimits (scale_of (said_of given.now))) }
{
    Some(Options {
        events: given.events,
        polls: given.polls,
        cycles: limit(MOST_CYCLES, given.cycles)?,
        ops: limit(scale_of(given).limits().counted_operations, given.ops)?,
    })
}

/// The value of a limit, which need not be given. `None` where it is given and is no number from 1 to `most`.
fn limit(most: u64, text: Option<&str>) -> Option<Option<u64>>
    ensures limit { result ≡ limit_in most (text_of text.entry) }
    ensures range { IfSome result (IsLimit most) }
{
    match text {
        Some(text) => Some(Some(number(1, most, text)?)),
        None => Some(None),
    }
}

/// The command `gen`, with its seed and its number of modules. `None` where one is missing or out of its bounds.
fn gen_of(given: &Given<'_>) -> Option<Command>
    ensures command { result ≡ gen_of (further_positionals given.now) }
    ensures range { IfSome result IsInRange }
{
    let seed = number(0, MOST_SEED, given.second?)?;
    let modules = number(1, MOST_MODULES, given.third?)?;
    Some(Command::Gen { seed, modules })
}

/// The command `sweep`, with its least and its greatest depth, and its limits. `None` where one is missing or out of its bounds.
fn sweep_of(given: &Given<'_>) -> Option<Command>
    ensures command { result ≡ sweep_of (said_of given.now) (further_positionals given.now) }
    ensures range { IfSome result IsInRange }
{
    if given.events || given.polls || given.slack.is_some() {
        return None;
    }
    let lo = number(1, MOST_SWEPT, given.second?)?;
    let hi = number(lo, MOST_SWEPT, given.third?)?;
    let options = options_of(given)?;
    Some(asked(given, SessionTask::Sweep { lo, hi, options }))
}

/// The slack of a command that takes `--slack`, and its options. `None` where something else is given, or a number is out of its
/// bounds.
fn with_slack(given: &Given<'_>) -> Option<(u64, Options)>
    ensures command { (task : ℕ → Options → SessionTask) → with_slack task (said_of given.now) (further_positionals given.now)
        ≡ option_map (λ found. asked (said_of given.now) (task found.0 found.1)) result }
    ensures range { IfSome result (λ found. (found.0 ≤ 10 ^ 15) × AreLimits (scale_of (said_of given.now)) found.1) }
{
    if given.events || given.polls || given.second.is_some() {
        return None;
    }
    let slack = match given.slack {
        Some(text) => number(0, MOST_SLACK, text)?,
        None => 0,
    };
    Some((slack, options_of(given)?))
}

/// The number that digits write, if it is from `least` to `most`; else `None`.
fn number(least: u64, most: u64, text: &str) -> Option<u64>
    ensures number { result ≡ number_in least most text.now }
    ensures range { IfSome result (λ number. (least ≤ number) × (number ≤ most)) }
{
    let number = read_number(text.as_bytes()).ok()?;
    if least <= number && number <= most {
        Some(number)
    } else {
        None
    }
}
