//! Tables of a block's operations by phases, and the next local clock in which a block has work.
#![tactic(auto)]

mod schedule;
mod tables;

pub use schedule::{DueRange, Schedule};
pub use tables::{Slot, interval};
