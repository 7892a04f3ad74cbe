//! The limits of the language: a session that exceeds one is refused. A session keeps the limits of its scale. The
//! constants outside `Limits` are limits at both scales, or the greater one of the two: the engine takes plans within
//! these.
ghost use Rattle.std.specs.Prelude.{◌≡◌};
ghost use Rattle.flow_design.specs.{limits_at};

/// Which limits a session keeps.
#[derive(Clone, Copy, Debug, PartialEq, Eq)]
pub enum Scale {
    /// The limits of the language as it stands.
    Standard,
    /// Larger limits, for designs of real size.
    Large,
}

/// The limits that depend on the scale: the greatest numbers that are permitted.
#[derive(Clone, Copy, Debug, PartialEq, Eq)]
pub struct Limits {
    /// The bytes of a session text.
    pub text_bytes: u64,
    /// The modules of a session.
    pub modules: u64,
    /// The channels of a session: FIFOs, sources and sinks together.
    pub channels: u64,
    /// The registers of a module.
    pub registers: u64,
    /// The temps of a body.
    pub temps: u64,
    /// The memories of a module.
    pub memories: u64,
    /// The words of a memory.
    pub memory_words: u64,
    /// The blocks of a module.
    pub blocks: u64,
    /// The operations of a body.
    pub operations: u64,
    /// II and LEN, in clocks.
    pub block_clocks: u64,
    /// How many iterations of a loop may be live at once: LEN is at most this many times II.
    pub live_iterations: u64,
    /// The input values of a session.
    pub input_values: u64,
    /// The depth of a FIFO, in elements.
    pub fifo_depth: u64,
    /// The operation limit of a module.
    pub counted_operations: u64,
    /// The operation limit of a module where the session has no `limits`.
    pub default_operations: u64,
}

impl Scale {
    /// The limits at this scale.
    pub fn limits(self) -> Limits
        ensures { result ≡ limits_at self }
    {
        match self {
            Scale::Standard => STANDARD,
            Scale::Large => LARGE,
        }
    }
}

/// The limits of the language as it stands.
pub const STANDARD: Limits = Limits {
    text_bytes: 4_194_304,
    modules: 64,
    channels: 256,
    registers: 256,
    temps: 64,
    memories: 16,
    memory_words: 4_096,
    blocks: 256,
    operations: 1_024,
    block_clocks: BLOCK_CLOCKS,
    live_iterations: 64,
    input_values: 100_000,
    fifo_depth: 1_000_000,
    counted_operations: LONG_BLOCK_OPERATIONS,
    default_operations: 100_000,
};

/// The larger limits.
pub const LARGE: Limits = Limits {
    text_bytes: TEXT_BYTES,
    modules: MODULES,
    channels: CHANNELS,
    registers: REGISTERS,
    temps: TEMPS,
    memories: MEMORIES,
    memory_words: MEMORY_WORDS,
    blocks: BLOCKS,
    operations: OPERATIONS,
    block_clocks: SHORT_BLOCK_CLOCKS,
    live_iterations: LIVE_ITERATIONS,
    input_values: INPUT_VALUES,
    fifo_depth: FIFO_DEPTH,
    counted_operations: COUNTED_OPERATIONS,
    default_operations: 10_000_000,
};

/// The most bytes of a session text.
pub const TEXT_BYTES: u64 = 134_217_728;

/// The most modules of a session.
pub const MODULES: u64 = 2_048;

/// The most channels of a session: FIFOs, sources and sinks together.
pub const CHANNELS: u64 = 8_192;

/// The most registers of a module.
pub const REGISTERS: u64 = 1_024;

/// The most temps of a body.
pub const TEMPS: u64 = 256;

/// The most memories of a module.
pub const MEMORIES: u64 = 64;

/// The most words of a memory.
pub const MEMORY_WORDS: u64 = 1_048_576;

/// The most words of all memories of a session.
pub const ALL_MEMORY_WORDS: u64 = 33_554_432;

/// The most blocks of a module.
pub const BLOCKS: u64 = 2_048;

/// The most operations of a body.
pub const OPERATIONS: u64 = 8_192;

/// The most iterations of a loop that may be live at once: LEN is at most this many times II.
pub const LIVE_ITERATIONS: u64 = 1_024;

/// The greatest II and LEN, in clocks.
pub const BLOCK_CLOCKS: u64 = 1_000_000_000_000;

/// The greatest II and LEN, in clocks, where a module may count more operations than `LONG_BLOCK_OPERATIONS`.
pub const SHORT_BLOCK_CLOCKS: u64 = 100_000_000;

/// The most operations that a module may count where II and LEN may be more than `SHORT_BLOCK_CLOCKS`.
pub const LONG_BLOCK_OPERATIONS: u64 = 200_000;

/// The most nodes of an expression.
pub const EXPRESSION_NODES: u64 = 256;

/// The most levels that an expression nests.
pub const EXPRESSION_DEPTH: u64 = 32;

/// The most input values of a session.
pub const INPUT_VALUES: u64 = 16_777_216;

/// The most edits of a session.
pub const EDITS: u64 = 1_000;

/// The greatest depth of a FIFO, in elements.
pub const FIFO_DEPTH: u64 = 1_073_741_824;

/// The greatest delay of a FIFO, in clocks.
pub const FIFO_DELAY: u64 = 1_000;

/// The greatest cycle limit, in clocks.
pub const CYCLES: u64 = 1_000_000_000_000_000;

/// The greatest operation limit of a module.
pub const COUNTED_OPERATIONS: u64 = 1_000_000_000;
