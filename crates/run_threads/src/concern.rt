//! What lets a held module go on.
use flow_word::Kind;
use sim_hub::Burst;

/// News from the hub.
#[derive(Clone, Copy, Debug, PartialEq, Eq)]
pub enum News {
    /// Steps got cycles or outcomes.
    Timed,
    /// A desk came back.
    Returned,
    /// The core is final, or memory ran out.
    Over,
}

impl News {
    /// The bit that stands for these news.
    pub fn bit(self) -> u64 {
        match self {
            News::Timed => 1,
            News::Returned => 2,
            News::Over => 4,
        }
    }
}

/// The news that a module waits for.
#[derive(Clone, Copy, Debug, PartialEq, Eq)]
pub enum Concern {
    /// News that all is over.
    End,
    /// News that there may be outcomes.
    Timing,
    /// News that there may be values.
    Values,
    /// Any news.
    Anything,
}

impl Concern {
    /// The bits of the news that the module waits for.
    pub fn bits(self) -> u64 {
        match self {
            Concern::End => 4,
            Concern::Timing => 5,
            Concern::Values => 6,
            Concern::Anything => 7,
        }
    }
}

/// What lets a module go on after its burst: all replies to the step that waits, or nothing where its run is over.
///
/// The outcomes of a step are found once it has its cycle. By then all values that it pops are there, so that only outcomes need be
/// waited for.
pub fn concern_after(burst: &Burst) -> Concern {
    let mut concern = Concern::End;
    for access in burst.run.waiting() {
        match access.kind {
            Kind::Write => {}
            Kind::Read => {
                if concern == Concern::End {
                    concern = Concern::Values;
                }
            }
            Kind::TryRead | Kind::TryWrite | Kind::Empty | Kind::Full => concern = Concern::Timing,
        }
    }
    concern
}
