//! The lists that an edit works with where few cycles change.

use crate::search::Search;
use event_graph::Place;
use std::alloc::Global;

/// A cycle that was put: the step's place, and the cycle that it had before.
#[derive(Clone, Copy, Debug, Drop)]
pub struct Put {
    pub place: Place,
    pub old: u64,
}

/// The lists that an edit fills where few cycles change. They are kept from one edit to the next, so that an edit seldom asks for
/// memory.
pub struct Changes {
    pub(crate) search: Search,
    /// The steps in which the new depth is felt.
    pub(crate) seeds: Vec<Place>,
    /// The cycles that were put into the graph, in the order of the puts.
    pub(crate) puts: Vec<Put>,
}

impl Drop for Changes {
    fn drop(self) {
        let Changes {
            search: _search,
            seeds: _seeds,
            puts: _puts,
        } = self;
    }
}

impl Changes {
    /// Empty lists. They take no memory.
    pub fn new(alloc: Global) -> Changes {
        Changes {
            search: Search::new(alloc),
            seeds: Vec::new(alloc),
            puts: Vec::new(alloc),
        }
    }
}
