//! The step that waits for an access.
ghost use Rattle.path_check.specs.{IsAccess};

use engine_view::Engine;
use flow_word::{Access, Place};

/// A step that waits for another, and how many clocks it comes after that one.
#[derive(Clone, Copy)]
pub(crate) struct Waiting {
    pub(crate) place: Place,
    pub(crate) clocks: u64,
}

/// The step that waits for an access: for a push, the step that pops its element; for a pop, the one that pushes into the place it
/// frees. `None` where no step waits for it.
pub(crate) fn waiting_for(engine: &Engine, access: &Access) -> Option<Waiting>
    requires { IsAccess engine.now.fifos.channels access.now }
{
    let fifos = &engine.fifos;
    if !fifos.is_fifo(access.channel) {
        return None;
    }
    let side = access.kind.side().other();
    let before = (access.ordinal - 1).saturating_add(fifos.free(access.channel, side));
    let place = fifos.place(access.channel, side, before)?;
    Some(Waiting {
        place,
        clocks: fifos.lag(access.channel, side),
    })
}
