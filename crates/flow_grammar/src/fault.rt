//! Why a text is refused.
ghost use Rattle.std.specs.Prelude.{◌≡◌};

use flow_word::OutOfMemory;
use thiserror::Error;

/// The first test that a text fails, with its number in the language.
#[derive(Clone, Copy, Debug, PartialEq, Eq)]
pub enum Code {
    /// The text has more bytes than its scale takes.
    TooLong = 1,
    /// A byte of the line is not 9, 13 or 32 to 126.
    NotAscii = 2,
    /// The line's tokens write no statement that may stand at this place.
    Syntax = 3,
    /// A number is out of its range.
    BadNumber = 4,
    /// A new name is declared already in its space, or a source has its inputs already.
    DoubleName = 5,
    /// A name is not declared before, or is not of the sort that is needed here.
    UnknownName = 6,
    /// A limit of `limits` is out of its range.
    BadLimit = 7,
    /// A channel does not have the readers and writers that it must have.
    Ends = 8,
    /// Two operations of a body pop the same channel, or push it, in the same clock.
    PortClash = 9,
    /// A loop's LEN is less than its II, or so much more that too many iterations are live at once.
    BadLoop = 10,
    /// An operation's offset is not below its block's LEN.
    BadOffset = 11,
    /// The text has no `end`.
    Truncated = 12,
    /// The line's statement is one too many of its kind, the memories have too many words, or an expression is too large.
    TooMany = 13,
    /// An `empty` is not in the module that pops its channel, or a `full` not in the one that pushes it.
    WrongSide = 14,
}

/// A refusal: the test that fails, and the line that fails it.
#[derive(Clone, Copy, Debug, PartialEq, Eq)]
pub struct TextFault {
    /// The number of the line, counted from 1; 0 where the text is too long.
    pub line: u64,
    pub code: Code,
}

/// Why a text gives no session.
#[derive(Clone, Copy, Debug, PartialEq, Eq, Error)]
pub enum ReadFail {
    /// The text is refused.
    #[error("the text is refused")]
    Text(TextFault),
    /// A request for memory was refused.
    #[error("out of memory")]
    OutOfMemory,
}

/// Why a line gives no statement.
#[derive(Clone, Copy, Debug, PartialEq, Eq, Error)]
pub enum LineFail {
    /// The line fails this test.
    #[error("the line is refused")]
    Fault(Code),
    /// A request for memory was refused.
    #[error("out of memory")]
    OutOfMemory,
}

impl From<OutOfMemory> for ReadFail {
    ghost use Rattle.flow_grammar.specs.declared.fault.ReadFail.TheVariants.{OutOfMemory as OutOfMemory_of_read};

    ghost from_gives = { λ _ fail. fail ≡ OutOfMemory_of_read };

    fn from(_: OutOfMemory) -> ReadFail {
        ReadFail::OutOfMemory
    }
}

impl From<OutOfMemory> for LineFail {
    ghost use Rattle.flow_grammar.specs.declared.fault.LineFail.TheVariants.{OutOfMemory as OutOfMemory_of_line};

    ghost from_gives = { λ _ fail. fail ≡ OutOfMemory_of_line };

    fn from(_: OutOfMemory) -> LineFail {
        LineFail::OutOfMemory
    }
}
