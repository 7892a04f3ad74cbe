//! How an answer ends.
ghost use Rattle.std.specs.Prelude.{◌≡◌, if◌then◌else◌};
ghost use Rattle.whole_answer.specs.{ending_of, is_done};

use flow_design::Verdict;

/// How an answer ends that nothing cut short.
#[derive(Clone, Copy, Debug, PartialEq, Eq)]
pub enum Ending {
    /// The design is done, or what was asked for is printed.
    Done,
    /// The words were refused, and nothing was read.
    Words,
    /// The text was refused.
    Text,
    /// The design deadlocks.
    Deadlock,
    /// The cycle limit was reached.
    Cycles,
    /// The operation limit of a module was reached.
    Ops,
}

impl Ending {
    /// The ending of an answer that tells a verdict.
    pub fn of(verdict: Verdict) -> Ending
        ensures { result ≡ ending_of verdict }
    {
        match verdict {
            Verdict::Done(_) => Ending::Done,
            Verdict::Deadlock(_) => Ending::Deadlock,
            Verdict::Cycles(_) => Ending::Cycles,
            Verdict::Ops(_) => Ending::Ops,
        }
    }

    /// This ending where it is not `Done`, and `next` otherwise.
    pub fn unless_done(self, next: Ending) -> Ending
        ensures { result ≡ (if is_done self then next else self) }
    {
        match self {
            Ending::Done => next,
            _ => self,
        }
    }
}
