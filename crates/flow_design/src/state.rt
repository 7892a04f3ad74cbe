//! States of modules and of the whole machine, which the definitions and the program share.
use crate::temps::LiveTemps;
use flow_word::{Kind, List, Queue, Step, Words};

/// Where a module stands in its block, in local clocks.
#[derive(Clone, Copy, Debug, PartialEq, Eq)]
pub struct Control {
    pub block: u32,
    /// The local clock of the block.
    pub clock: u64,
    /// The local clock at which the newest iteration started. The older ones started at each II local clocks before it.
    pub newest: u64,
    /// Whether a further iteration may start.
    pub looping: bool,
}

/// The state of a module.
#[derive(Debug)]
pub struct ModuleState {
    pub control: Control,
    pub registers: Words,
    pub memories: List<Words>,
    /// The temps of each live iteration, the oldest first.
    pub temps: LiveTemps,
    /// The operation count.
    pub count: u64,
    /// Whether the module is ended.
    pub ended: bool,
}

impl Drop for ModuleState {
    fn drop(self) {
        let ModuleState {
            control: _control,
            registers: _registers,
            memories: _memories,
            temps: _temps,
            count: _count,
            ended: _ended,
        } = self;
    }
}

/// An element that a channel holds.
#[derive(Clone, Copy, Debug, PartialEq, Eq)]
pub struct Element {
    pub value: u64,
    /// The first clock in which it can be popped: 0 for an input value.
    pub since: u64,
}

/// The state of all modules and channels at one clock.
pub struct ClockState {
    pub modules: List<ModuleState>,
    /// What each channel holds, the front first.
    pub contents: List<Queue<Element>>,
}

impl Drop for ClockState {
    fn drop(self) {
        let ClockState {
            modules: _modules,
            contents: _contents,
        } = self;
    }
}

/// A due FIFO operation: what a module asks of a channel in a clock.
#[derive(Clone, Copy, Debug, PartialEq, Eq)]
pub struct Request {
    pub kind: Kind,
    pub channel: u32,
    /// What a write or a tried write pushes, cut to the channel's width; 0 for the other kinds.
    pub value: u64,
}

/// The reply to a request in the clock in which its module moves.
#[derive(Clone, Copy, Debug, PartialEq, Eq)]
pub enum Reply {
    /// A write was done.
    Done,
    /// A read popped this value.
    Value(u64),
    /// The outcome of a tried write, or of a test for empty or full.
    Flag(bool),
    /// A tried read popped this value.
    Took(u64),
    /// A tried read found its channel empty.
    Missed,
}

/// A due operation: it belongs to a live iteration, its offset is the iteration's age, and it has no guard or its guard
/// is not 0.
#[derive(Clone, Copy, Debug, PartialEq, Eq)]
pub struct Due {
    /// The place of its iteration among the live ones, the oldest being 0.
    pub iteration: u32,
    /// The number of the operation in its block.
    pub op: u32,
}

/// What an operation writes when its local clock commits.
#[derive(Clone, Copy, Debug, PartialEq, Eq)]
pub enum Effect {
    /// A value for a register, or for a temp of this iteration.
    Variable {
        iteration: u32,
        variable: u32,
        value: u64,
    },
    /// A value for the word at this address of a memory.
    Word {
        memory: u32,
        address: u64,
        value: u64,
    },
}

/// A mark of a module's own run: what the run tells next.
#[derive(Debug, Drop)]
pub enum Advance {
    /// The next local clock with a due FIFO operation.
    Step(Step),
    /// The module has ended, this many local clocks after its last step, or after its local clock 0 where it has no step.
    Ended(u64),
    /// The module is spent, this many local clocks after its last step, or after its local clock 0 where it has no step.
    Spent(u64),
}
