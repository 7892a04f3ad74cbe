//! Small sessions with their answers, which were worked out by hand. Tests of several crates use them.
#![tactic(auto)]

mod deadlocks;
mod delays;
mod designs;
mod edits;
mod limits;
mod modules;
mod plan;
mod queries;
mod text;
mod worked;

pub use deadlocks::{DEADLOCK_AT_ONCE, DEADLOCKS};
pub use delays::DELAYS;
pub use designs::{
    DESIGNS, EMPTY_DESIGN, LONG_BLOCK, PLAIN_ANSWER, PLAIN_CASE, THREE_VALUES, TWO_MODULES,
    TWO_MODULES_ANSWER,
};
pub use edits::{EDITS, LATE_CHANNEL, REALISTIC_LINE};
pub use limits::{LIMITS, POLLING_LOOP};
pub use modules::{THREE_PUSHES_AND_POPS, TRY_BEFORE_PUSH};
pub use plan::{plan_of, read_plan};
pub use queries::{
    BOTH_ENDS_IN_ONE_MODULE, LATER_STALL, QUERIES, TIE_ONE_LATER, TWO_LEAST_QUERIES,
};
pub use text::{SessionParts, joined};
pub use worked::Worked;
