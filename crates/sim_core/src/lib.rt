//! The core of the engine: a plan with the marks, cycles and outcomes of its modules so far, and the actions on it.
#![tactic(auto)]

mod access_log;
mod alone;
mod back;
mod beside;
mod bodies;
mod bursts;
mod drive;
mod due;
mod edit;
mod final_core;
mod laws;
mod lent;
mod machine;
mod marks_room;
mod opening;
mod post;
mod readers;
mod records;
mod report;
mod running;
mod spans;
mod stretch;
mod taken;
mod timing;
mod timings;
mod turn;
mod unread;
mod visit;
mod wiring;

pub use access_log::LoggedAccess;
pub use alone::{finish_alone, run_alone};
pub use bursts::bursts_are_runs;
pub use final_core::FinalCore;
pub use flow_design::Plan;
pub use laws::{every_order, steps_are_own_marks};
pub use machine::Core;
pub use outcome_guard::{Guard, Query};
pub use readers::find_users;
pub use records::{edits_set_few, records_are_answers};
pub use run_ahead::{Burst, Mail, Marks, Task, work};
