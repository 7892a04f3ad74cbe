//! Simulating a plan with a thread for each module. The threads and the caller take turns at one core.
#![tactic(auto)]

mod concern;
mod crew;
mod drive;
mod gate;
mod lead;
mod room;
mod run;
mod start;
mod threadless;
mod wakers;

pub use gate::{FreeGate, Gate};
pub use run::{run_core, run_threads};
pub use sim_hub::{Burst, HubTurn, Marks, Task, Threaded, work};
pub use threadless::Threadless;
