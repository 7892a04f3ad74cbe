//! The first clock that a change of a FIFO's depth touches.
ghost use Rattle.std.specs.Prelude.{◌≡◌, ◌<◌, ◌≤◌, length, IfSome, IsNone};
ghost use Rattle.retime.specs.{cycle_bound, IsFifo, channel_at, places_of, enabler_of, HasPlaces, IsEditIn, ArePlacesInOrder};
ghost use Rattle.retime.specs.{IsFirstTouched, IsNeverTouched, clock_by};

use event_graph::Graph;
use fifo_table::{Enabler, FifoTable};
use flow_design::Edit;
use flow_word::Side;

/// The first touched clock of an edit: the first clock in which the FIFO, by the cycles that were given, holds as many elements as
/// the lesser of its depth and the new one. `None` where there is no such clock, or the depth stays the same.
///
/// It looks at each push and each pop of the channel at most once, and takes no memory.
pub fn first_touched(graph: &Graph, fifos: &FifoTable, edit: &Edit) -> Option<u64>
    requires edit { IsEditIn fifos.now.channels edit.now }
    requires places { HasPlaces graph.now.lanes fifos.now.channels }
    requires in_order { (side : Side) → ArePlacesInOrder (places_of side (channel_at fifos.now.channels edit.now.channel)) }
    ensures some { IfSome result
        (λ t. IsFirstTouched graph.now.lanes (channel_at fifos.now.channels edit.now.channel) edit.now.depth t) }
    ensures none { IsNone result
        → IsNeverTouched graph.now.lanes (channel_at fifos.now.channels edit.now.channel) edit.now.depth }
{
    let stands = fifos.depth(edit.channel);
    if edit.depth == stands {
        return None;
    }
    let full = edit.depth.min(stands);
    graph.stays_sound();
    for before in full - 1..fifos.pushes(edit.channel) {
        // The cycle of the push that comes after `before` others. The pop of its element waits for it.
        let Some(push) = event_cycle(graph, fifos, edit.channel, Side::Pop, before + 1) else {
            return None;
        };
        // This push makes the FIFO that full, unless the pop that frees one more place came before it or in its clock. A later push
        // waits for that pop.
        let waiting = stands + (before + 2 - full);
        match event_cycle(graph, fifos, edit.channel, Side::Push, waiting) {
            Some(pop) if pop <= push => {}
            _ => return Some(push + 1),
        }
    }
    None
}

/// The cycle of the event that the n-th pop, or the n-th push, of a FIFO waits for. `None` where there is no such event with a
/// cycle.
fn event_cycle(graph: &Graph, fifos: &FifoTable, channel: u32, side: Side, n: u64) -> Option<u64>
    requires channel { channel < length fifos.now.channels }
    requires fifo { IsFifo (channel_at fifos.now.channels channel).kind }
    requires from_one { 1 ≤ n }
    requires places { HasPlaces graph.now.lanes fifos.now.channels }
    ensures cycle { result ≡ clock_by graph.now.lanes (enabler_of (channel_at fifos.now.channels channel) side n) }
    ensures below { IfSome result (λ cycle. cycle < cycle_bound) }
{
    match fifos.enabler(channel, side, n) {
        Enabler::Event(place) => graph.cycle_of(place),
        Enabler::Free | Enabler::Missing | Enabler::Never => None,
    }
}
