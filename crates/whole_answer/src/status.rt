//! How the program ends.
ghost use Rattle.std.specs.Prelude.{◌≡◌};
ghost use Rattle.whole_answer.specs.{SaysAnswered, exit_number, status_of};

use crate::ending::Ending;

/// How the program ends.
#[derive(Clone, Copy, Debug, PartialEq, Eq)]
pub enum Status {
    /// All modules came to their ends, or what was asked for is printed.
    Done,
    /// The words were refused, and nothing was read.
    Words,
    /// The text was refused.
    Text,
    /// The design deadlocks.
    Deadlock,
    /// The cycle limit was reached.
    Cycles,
    /// The operation limit of a module was reached.
    Ops,
    /// The source has failed.
    ReadFault,
    /// The sink has failed.
    WriteFault,
    /// Memory ran out.
    Memory,
}

impl Status {
    /// The status of an answer that was written whole.
    pub(crate) fn of(ending: Ending) -> Status
        ensures status { result ≡ status_of ending }
        ensures answer { SaysAnswered result }
    {
        match ending {
            Ending::Done => Status::Done,
            Ending::Words => Status::Words,
            Ending::Text => Status::Text,
            Ending::Deadlock => Status::Deadlock,
            Ending::Cycles => Status::Cycles,
            Ending::Ops => Status::Ops,
        }
    }

    /// The number with which the program exits.
    pub fn number(self) -> u8
        ensures { result ≡ exit_number self }
    {
        match self {
            Status::Done => 0,
            Status::Words => 1,
            Status::Text => 2,
            Status::Deadlock => 3,
            Status::Cycles => 4,
            Status::Ops => 5,
            Status::ReadFault => 6,
            Status::WriteFault => 7,
            Status::Memory => 8,
        }
    }
}
