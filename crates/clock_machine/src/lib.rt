//! The lockstep machine in plain code: all modules of a plan, one clock at a time, and the report.
#![tactic(auto)]

mod asking;
mod channels;
mod contents;
mod ending;
mod memo;
mod opening;
mod run;
mod standing;
mod telling;
mod turn;
mod turns;

pub use module_code::BlockCode;
pub use opening::codes_of_all;
pub use run::{clock_run, clock_run_by};
