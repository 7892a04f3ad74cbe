//! The clocks in which elements pass the ports of a plan, read off what a core holds at its end, and a walk over those of a FIFO.
#![tactic(auto)]

mod laws;
mod leads;
mod ports;
mod reading;
mod walk;

pub use laws::clocks_tell_fills;
pub use leads::{ahead_clocks, most_ahead};
pub use ports::{FifoClocks, fifo_clocks, own_clocks};
pub use walk::FifoWalk;
