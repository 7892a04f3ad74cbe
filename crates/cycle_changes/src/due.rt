//! The cycle that a step must have, by a draft.
ghost use Rattle.std.specs.Prelude.{All};
ghost use Rattle.cycle_changes.specs.{IsAccess, HasAccesses};

use crate::draft::Draft;
use crate::timed::has_cycle;
use event_graph::{Access, Graph, LaneAccesses, Place};
use fifo_table::{Enabler, FifoTable};

/// The cycle that a step must have, by the draft's cycles: the latest of the clock in which the module comes to it and of those
/// from which on its blocking accesses are possible. `None` where there is no such step with a cycle, or an access waits.
pub fn due_cycle(draft: &Draft, graph: &Graph, fifos: &FifoTable, at: Place) -> Option<u64>
    requires { HasAccesses graph.now.lanes fifos.now.channels }
{
    if !has_cycle(graph, at) {
        return None;
    }
    let step = graph.look(at);
    let arrival = draft.cycle_before(at)?.checked_add(step.gap)?;
    latest(draft, fifos, &step.accesses, arrival)
}

/// The latest of a clock and of those from which on the blocking ones among these accesses are possible. `None` where one of them
/// waits.
fn latest(draft: &Draft, fifos: &FifoTable, accesses: &LaneAccesses<'_>, clock: u64) -> Option<u64>
    requires { All (IsAccess fifos.now.channels) accesses.now }
{
    let mut cycle = clock;
    for access in accesses.iter() {
        if access.kind.is_blocking() {
            cycle = cycle.max(possible_from(draft, fifos, &access)?);
        }
    }
    Some(cycle)
}

/// The clock from which on an access is possible. `None` where it waits.
fn possible_from(draft: &Draft, fifos: &FifoTable, access: &Access) -> Option<u64>
    requires { IsAccess fifos.now.channels access.now }
{
    let side = access.kind.side();
    match fifos.enabler(access.channel, side, access.ordinal) {
        Enabler::Free => Some(0),
        Enabler::Never | Enabler::Missing => None,
        Enabler::Event(place) => draft
            .cycle(place)?
            .checked_add(fifos.lag(access.channel, side)),
    }
}
