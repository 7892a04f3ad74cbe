//! A grid of FIFO depths of one plan, simulated point by point on several threads, and the best of its points.
#![tactic(auto)]

mod fifos;
mod parallel;
mod point;
mod ranking;
mod shape;

pub use parallel::{SweepFault, sweep};
pub use point::Point;
pub use ranking::best;
