//! The words of the command line: which lists of words are a command, and which command they are.
#![tactic(auto)]

ghost use Rattle.std.specs.Prelude.{◌≡◌, IfOk, map, None, Some, Err, string_bytes};
ghost use Rattle.cli_words.specs.{accepted, IsInRange};

mod parser;
mod rules;

use flow_design::limits::Scale;
use std::alloc::Global;
use thiserror::Error;

/// The options of a simulating command.
#[derive(Clone, Copy, Debug, PartialEq, Eq)]
pub struct Options {
    /// Whether the report tells every FIFO operation, as an event.
    pub events: bool,
    /// Whether the text tells how the modules poll.
    pub polls: bool,
    /// The cycle limit, in clocks, that replaces the session's. `None` keeps the session's.
    pub cycles: Option<u64>,
    /// The operation limit that replaces the session's. `None` keeps the session's. It is within the limits of the scale.
    pub ops: Option<u64>,
}

/// How a session is simulated. Each way gives the same answer.
#[derive(Clone, Copy, Debug, PartialEq, Eq)]
pub enum Simulator {
    /// `run`: the event engine, which skips the clocks in which nothing happens, with a thread for each module.
    Threads,
    /// `alone`: the event engine on the calling thread.
    Alone,
    /// `clock`: the lockstep machine, which goes through all clocks.
    Clock,
}

/// What is shown of the simulation of a session's design, before any edit. The edits are checked and not applied.
#[derive(Clone, Copy, Debug, PartialEq, Eq)]
pub enum ViewName {
    /// `wave`: how many elements each FIFO holds, clock by clock.
    Wave,
    /// `log`: what each access gave, and when.
    Log,
    /// `stalls`: where the modules lose their clocks.
    Stalls,
    /// `path`: which chain of modules and FIFOs makes the latency.
    Path,
    /// `trace`: what each module does, clock by clock, for a trace viewer.
    Trace,
}

/// What is done with the session that is read.
#[derive(Clone, Copy, Debug, PartialEq, Eq)]
pub enum SessionTask {
    /// Simulate the session's plan, and the plan after each of its edits.
    Simulate(Simulator, Options),
    /// Write the session in its canonical form.
    Check,
    /// Advise a depth for each FIFO, with which no FIFO is ever full.
    Advise(Options),
    /// Show this of its simulation.
    Show(ViewName, Options),
    /// Tell which modules are serial: their pipelined loops equal plain loops.
    Order,
    /// Simulate the plan with each choice of depths from `lo` to `hi` for its FIFOs.
    Sweep { lo: u64, hi: u64, options: Options },
    /// Find the least depths with which the end is no more than `slack` clocks later.
    Size { slack: u64, options: Options },
    /// Find the depths with the fewest bits of FIFO memory with which the end is no more than `slack` clocks later.
    Least { slack: u64, options: Options },
}

/// A task on a session.
#[derive(Clone, Copy, Debug, PartialEq, Eq)]
pub struct ScaledTask {
    /// The scale: which limits the session keeps.
    pub scale: Scale,
    /// What is done with the session.
    pub task: SessionTask,
}

/// A command of the program.
#[derive(Clone, Copy, Debug, PartialEq, Eq)]
pub enum Command {
    /// Read a session, and do this with it.
    Of(ScaledTask),
    /// Simulate the session with this many modules that the seed gives.
    Gen { seed: u64, modules: u64 },
}

/// Why words give no command.
#[derive(Clone, Copy, Debug, PartialEq, Eq, Error)]
pub enum WordFault {
    /// The words are not an accepted list.
    #[error("the words are refused")]
    Refused,
    /// A request for memory was refused.
    #[error("out of memory")]
    OutOfMemory,
}

/// Reads the words after the program's name, and answers the command that they are. The error is `Refused` where they are not an
/// accepted list, or `OutOfMemory`. The numbers of a command are within their bounds.
pub fn read_words(alloc: Global, words: &[String]) -> Result<Command, WordFault>
    ensures command { IfOk result
        (λ command. accepted (map string_bytes words.now) ≡ Some command) }
    ensures refused { result ≡ Err WordFault.Refused
        → accepted (map string_bytes words.now) ≡ None }
    ensures range { IfOk result (λ command. IsInRange command) }
{
    let given = parser::parse(alloc, words)?;
    rules::command_of(&given).ok_or(WordFault::Refused)
}
