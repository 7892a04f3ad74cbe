//! Links of the chain, read from the spans of modules.
ghost use Rattle.std.specs.Prelude.{◌≡◌, ℕ, ◌<◌, IsTrue};
ghost use Rattle.path_text.specs.{Plan, AreSpansBelow, moves_at, span_start, AreSpansSorted, IsWith, StoodBefore, link_at, moving_end};
ghost use Rattle.path_text.specs.{stalled_port};

use depth_order::Link;
use flow_word::Port;
use timelines::{Doing, Span};

/// The link that ends with this clock, in which the module moves, read from the module's spans.
pub(crate) fn link_to(spans: &[Span], owner: u32, clock: u64) -> Link
    requires { AreSpansSorted spans.now }
    ensures { (p : Plan) (end : ℕ) → AreSpansBelow p owner end spans.now → clock < end → IsTrue (moves_at p clock owner)
        → result ≡ link_at p owner clock }
{
    let first = start_of(spans, clock);
    Link {
        module: owner,
        first,
        last: clock,
        crossed: stood_before(spans, first),
    }
}

/// The first clock of the span with this clock, in which the module moves.
fn start_of(spans: &[Span], clock: u64) -> u64
    requires { AreSpansSorted spans.now }
    ensures { (p : Plan) (owner end : ℕ) → AreSpansBelow p owner end spans.now → clock < end → IsTrue (moves_at p clock owner)
        → result ≡ span_start p owner clock }
{
    match span_with(spans, clock) {
        Some(span) => span.first,
        None => clock,
    }
}

/// The port at which a module stalls in the clock before this one, in which it moves; `None` where it does not stall then.
fn stood_before(spans: &[Span], clock: u64) -> Option<Port>
    requires { AreSpansSorted spans.now }
    ensures { (p : Plan) (owner end : ℕ) → AreSpansBelow p owner end spans.now → clock < end → IsTrue (moves_at p clock owner)
        → StoodBefore p owner clock result }
{
    if clock == 0 {
        return None;
    }
    match span_with(spans, clock - 1) {
        Some(span) => port_of(span.doing),
        None => None,
    }
}

/// The port at which a module stalls; `None` where it moves.
fn port_of(doing: Doing) -> Option<Port>
    ensures { result ≡ stalled_port doing }
{
    match doing {
        Doing::Still(port) => Some(port),
        Doing::Moves => None,
    }
}

/// The span that holds a clock; `None` where no span does.
fn span_with(spans: &[Span], clock: u64) -> Option<Span>
    requires { AreSpansSorted spans.now }
    ensures { IsWith spans.now clock result }
{
    let mut low = 0;
    let mut high = spans.len();
    while low < high {
        let middle = low + (high - low) / 2;
        let span = spans[middle];
        if clock < span.first {
            high = middle;
        } else if span.until <= clock {
            low = middle + 1;
        } else {
            return Some(span);
        }
    }
    None
}

/// The clock after the last one in which a module moves; `None` where it moves in no clock.
pub(crate) fn moving_end(spans: &[Span]) -> Option<u64>
    ensures { result ≡ moving_end spans.now }
{
    let mut end = None;
    for span in spans {
        if span.doing == Doing::Moves {
            end = Some(span.until);
        }
    }
    end
}
