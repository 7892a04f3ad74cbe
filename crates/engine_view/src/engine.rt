//! What an engine holds.
use event_graph::Graph;
use fifo_table::FifoTable;
use flow_design::Advance;
use query_log::QueryLog;

/// What an engine holds of a plan, with room for further steps.
///
/// Each of its calls changes all parts that it must, so that the parts stay a core of the plan. Contracts see the parts.
pub struct Engine {
    /// The steps of each module, with the cycles of the first of them.
    pub graph: Graph,
    /// The pushes and pops of each channel.
    pub fifos: FifoTable,
    /// The outcomes of each module's queries.
    pub log: QueryLog,
    /// The end mark of each module whose own run came to its end. `None` for any other.
    pub ends: Vec<Option<Advance>>,
    /// Each module's credit: how many more places its steps may take at each of its ports without asking for memory, two for a
    /// step.
    pub credits: Vec<u64>,
}

impl Drop for Engine {
    fn drop(self) {
        let Engine {
            graph: _graph,
            fifos: _fifos,
            log: _log,
            ends: _ends,
            credits: _credits,
        } = self;
    }
}
