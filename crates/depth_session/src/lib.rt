//! A plan whose FIFO depths are edited one after the other: after each edit its report, and how many runs all reports count.
#![tactic(auto)]

mod following;
mod laws;
mod runner;
mod session;
mod state;

pub use laws::{logs_are_kept, records_go_on};
pub use runner::{AloneRunner, RunLeave, Runner, ThreadRunner};
pub use session::DepthSession;
pub use sim_core::{Core, FinalCore};
