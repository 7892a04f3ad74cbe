//! The single actions of a core, and why an action is not permitted.
use event_graph::Place;
use flow_word::OutOfMemory;
use thiserror::Error;

/// An action of a core, at the module with this number.
#[derive(Clone, Copy, Debug, PartialEq, Eq)]
pub enum Action {
    /// Commits the replies to the module's newest step, and emits its next mark.
    Run(u32),
    /// Gives the module's first step without a cycle a cycle.
    Assign(u32),
    /// Answers the queries of the module's first step without a cycle. Each of them is decided.
    Answer(u32),
    /// Answers the queries of the module's first step without a cycle, where some are undecided: these count as not possible.
    Earliest(u32),
}

/// The first condition of an action that fails.
///
/// A `Place` is a step of the action's module: the newest one for a Run, else the first one without a cycle. The number beside it
/// is that of an access of the step, counted from 0.
#[derive(Clone, Copy, Debug, PartialEq, Eq)]
pub enum Cause {
    /// The reply to this access is not there.
    Waiting(Place, u32),
    /// The module is ended or spent.
    Over(u32),
    /// Every emitted step of the module has a cycle.
    NoStep(u32),
    /// The step's cycle is not determined: it is not known from which clock on this access is possible.
    Undetermined(Place, u32),
    /// The step's cycle is at the limit or later.
    AtLimit(Place),
    /// For Assign: this query has no verified outcome. For Answer: this query is undecided.
    Unsettled(Place, u32),
    /// The step has no query without a verified outcome.
    NoQuery(Place),
    /// For Earliest: each query of the step is decided.
    Decided(Place),
    /// For Earliest: a Run, an Assign or an Answer of this module is permitted, so that no Earliest is.
    Busy(u32),
    /// For Earliest: this other module has an open step with a lesser cycle, which is told in clocks.
    Later(u32, u64),
}

/// Why an action was not done.
#[derive(Clone, Copy, Debug, PartialEq, Eq, Error)]
pub enum ActFault {
    /// The action is not permitted: this is the first of its conditions that fails.
    #[error("the action is not permitted")]
    NotPermitted(Cause),
    /// A request for memory was refused.
    #[error("out of memory")]
    OutOfMemory,
}

impl From<Cause> for ActFault {
    ghost use Rattle.std.specs.Prelude.{◌≡◌};
    ghost use Rattle.core_actions.specs.declared.actions.ActFault.TheVariants.{NotPermitted};

    ghost from_gives = { λ cause fault. fault ≡ NotPermitted cause };

    fn from(cause: Cause) -> Self {
        ActFault::NotPermitted(cause)
    }
}

impl From<OutOfMemory> for ActFault {
    ghost use Rattle.std.specs.Prelude.{◌≡◌};
    ghost use Rattle.core_actions.specs.declared.actions.ActFault.TheVariants.{OutOfMemory};

    ghost from_gives = { λ _ fault. fault ≡ OutOfMemory };

    fn from(_: OutOfMemory) -> Self {
        ActFault::OutOfMemory
    }
}
