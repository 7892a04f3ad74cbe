//! The event that an access waits for.
use flow_word::Place;

/// The event that makes an access possible, its enabler.
#[derive(Clone, Copy, Debug, PartialEq, Eq)]
pub enum Enabler {
    /// The access is possible from the start.
    Free,
    /// The access waits for the push or pop of this step.
    Event(Place),
    /// The access waits for a push or pop that is not emitted yet.
    Missing,
    /// The access is never possible: all inputs of a source are used up.
    Never,
}
