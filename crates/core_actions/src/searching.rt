//! The first access of a step that keeps an action from being permitted.
ghost use Rattle.std.specs.Prelude.{◌≡◌, ◌<◌, ◌^◌, All, length, position, IfSome};
ghost use Rattle.core_actions.specs.{HasPlaces, IsAccess, is_query_access, is_open_query};

use event_graph::{Access, Graph, LaneAccesses};
use fifo_table::FifoTable;
use query_resolve::{Decision, decide};

/// The number of the first query among these accesses. `None` where there is none.
pub(crate) fn query_in(accesses: &LaneAccesses<'_>) -> Option<u32>
    requires { length accesses.now < 2 ^ 32 }
    ensures { result ≡ position is_query_access accesses.now }
{
    let mut number = 0;
    for access in accesses.iter() {
        if is_query(&access) {
            return Some(number);
        }
        number += 1;
    }
    None
}

/// Whether the access is a query.
fn is_query(access: &Access) -> bool
    ensures { result ≡ is_query_access access.now }
{
    !access.kind.is_blocking()
}

/// The number of the first undecided query among these accesses. `None` where there is none.
pub(crate) fn undecided_in(
    graph: &Graph,
    fifos: &FifoTable,
    accesses: &LaneAccesses<'_>,
) -> Option<u32>
    requires inside { All (IsAccess fifos.now.channels) accesses.now }
    requires places { HasPlaces graph.now.lanes fifos.now.channels }
    requires short { length accesses.now < 2 ^ 32 }
    ensures { result ≡ position (is_open_query graph.now.lanes fifos.now.channels) accesses.now }
{
    let mut number = 0;
    for access in accesses.iter() {
        if is_undecided(graph, fifos, &access) {
            return Some(number);
        }
        number += 1;
    }
    None
}

/// Whether an access is an undecided query: it is not known from when on it is possible, nor that it never is.
fn is_undecided(graph: &Graph, fifos: &FifoTable, access: &Access) -> bool
    requires access { IsAccess fifos.now.channels access.now }
    requires places { HasPlaces graph.now.lanes fifos.now.channels }
    ensures { result ≡ is_open_query graph.now.lanes fifos.now.channels access.now }
{
    is_query(access) && matches!(decide(graph, fifos, access, 0), Decision::Undecided)
}

/// The place that was found, as the number of an access.
pub(crate) fn number_of(index: Option<usize>) -> Option<u32>
    requires { IfSome index (λ i. i < 2 ^ 32) }
    ensures { result ≡ index }
{
    match index {
        Some(index) => Some(index as u32),
        None => None,
    }
}
