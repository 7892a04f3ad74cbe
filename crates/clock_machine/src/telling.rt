//! The events that a clock adds.
ghost use Rattle.std.specs.Prelude.{◌≡◌, ◌<◌, ◌^◌, ◌++◌, map, OnOk};
ghost use Rattle.clock_machine.specs.{event_by, events_kept};

use crate::standing::AtClock;
use flow_design::{EventLine, Request};
use flow_word::{List, OutOfMemory};

/// Adds the events of one module's operations in a clock.
fn tell_events(
    events: &mut List<EventLine>,
    clock: u64,
    i: u32,
    requests: &[Request],
) -> Result<(), OutOfMemory>
    ensures { OnOk result (events.new ≡ events.old ++ map (event_by clock i) requests.now) }
{
    for request in requests {
        events.push(EventLine {
            module: i,
            kind: request.kind,
            channel: request.channel,
            cycle: clock,
        })?;
    }
    Ok(())
}

/// Adds the events of module i's operations in a clock, where events are kept. After `OutOfMemory` some of them may be missing.
#[inline(always)]
pub fn tell_kept_events(
    at: &AtClock<'_>,
    i: usize,
    requests: &[Request],
    events: &mut List<EventLine>,
) -> Result<(), OutOfMemory>
    requires few { i < 2 ^ 32 }
    ensures { OnOk result (events.new ≡ events.old ++ events_kept at.now.keep (map (event_by at.now.clock i) requests.now)) }
{
    if at.keep {
        tell_events(events, at.clock, i as u32, requests)?;
    }
    Ok(())
}
