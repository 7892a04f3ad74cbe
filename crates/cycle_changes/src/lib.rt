//! New cycles after a change of a FIFO's depth, where few of them change.
//!
//! The search for them works on a draft, and nothing is proved of it. Its cycles are then put into the graph. A check finds each
//! step right that is not as it was, or in which the new depth is felt. Where the check fails, the puts are undone.
//!
//! That such a check suffices is the law of right records: a record of cycles and outcomes in which each step is right by its
//! neighbours is that of the history.
#![tactic(auto)]

mod changed;
mod changes;
mod check;
mod draft;
mod due;
mod laws;
mod look_laws;
mod looking;
mod puts;
mod reach;
mod record_laws;
mod search;
mod seeds;
mod timed;

pub use changed::retime_changes;
pub use changes::Changes;
pub use laws::{changes_are_cores, changes_are_right};
pub use look_laws::{looks_are_right, other_cycles_are_held};
pub use looking::look;
pub use record_laws::{local_changes, records_go_on, right_records};
