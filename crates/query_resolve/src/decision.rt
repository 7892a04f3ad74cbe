//! Whether a query is possible.
ghost use Rattle.std.specs.Prelude.{◌≡◌, ◌↔◌};
ghost use Rattle.query_resolve.specs.{IsAccess, HasPlaces, when_possible, IsPossible, IsImpossible, late_outcome};

use event_graph::{Access, Graph, Kind};
use fifo_table::FifoTable;
use time_engine::{Known, known_of};

/// Whether a query is possible in the clock of its step.
#[derive(Clone, Copy, Debug, PartialEq, Eq)]
pub enum Decision {
    Yes,
    No,
    /// The access waits for an event that has no cycle yet.
    Undecided,
}

/// Whether a query is possible in the clock of its step, by the cycles that were given so far. It takes no memory.
pub fn decide(graph: &Graph, fifos: &FifoTable, access: &Access, cycle: u64) -> Decision
    requires access { IsAccess fifos.now.channels access.now }
    requires places { HasPlaces graph.now.lanes fifos.now.channels }
    ensures yes { (result ≡ Decision.Yes) ↔ IsPossible (when_possible graph.now.lanes fifos.now.channels access.now) cycle }
    ensures no { (result ≡ Decision.No) ↔ IsImpossible (when_possible graph.now.lanes fifos.now.channels access.now) cycle }
    ensures undecided { (result ≡ Decision.Undecided) ↔ (when_possible graph.now.lanes fifos.now.channels access.now ≡ Known.Unknown) }
{
    match known_of(graph, fifos, access) {
        Known::From(clock) if clock <= cycle => Decision::Yes,
        Known::From(_) | Known::Never => Decision::No,
        Known::Unknown => Decision::Undecided,
    }
}

/// The outcome of a query of this kind that is not possible: yes for `Empty` and `Full`, no for `TryRead` and `TryWrite`. It takes
/// no memory.
pub fn late(kind: Kind) -> bool
    ensures { result ≡ late_outcome kind }
{
    !kind.takes()
}
