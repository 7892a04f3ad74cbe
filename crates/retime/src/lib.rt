//! New cycles after a change of a FIFO's depth, from the first clock that the change touches.
#![tactic(auto)]

mod laws;
mod retimed;
mod rounds;
mod touched;

pub use laws::retimings_agree;
pub use retimed::retime;
pub use rounds::time_all;
pub use touched::first_touched;
