//! Whether a plan ends late, or never, with other depths of its FIFOs: by a path of steps, each of which waits for the one before it.
//! The law of such paths, a check of one, and a search for depths with which a plan ends late.
#![tactic(auto)]

mod bounds;
mod events;
mod latest;
mod laws;
mod paths;
mod quiet;
mod trails;
mod waits;

pub use bounds::{DepthTarget, late_depth};
pub use latest::{Latest, find_latest};
pub use laws::paths_end_late;
pub use paths::{ends_after, never_ends};
pub use quiet::asks_nothing;
pub use waits::is_timed;
