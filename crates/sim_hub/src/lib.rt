//! One core under a turn lock. Modules borrow desks, run ahead outside the lock, and give their bursts back; a performance pass
//! gives steps their cycles. All turns are one legal history of the core.
#![tactic(auto)]

mod answer;
mod hub;
mod kept;
mod ledger;
mod pass;

pub use answer::{Closed, Desk, PerfAnswer, Threaded};
pub use hub::Hub;
pub use pass::{ModulePass, PerfPass};
pub use sim_core::{Burst, Core, Mail, Marks, Task, work};
pub use timing_bridge::{HubEntry, HubTurn};
