//! The entries of a hub's history.
use crate::turn::HubTurn;
use flow_design::Plan;

/// An entry of a hub's history.
#[derive(Drop)]
pub enum HubEntry {
    /// The plan at whose opening the history began.
    Opened(Plan),
    /// A turn that a pass took.
    Turn(HubTurn),
}
