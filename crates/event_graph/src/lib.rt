//! The event graph: the steps that each module made, and the clocks at which they were done.
#![tactic(auto)]

mod candidate;
mod graph;
mod hints;
mod lane;
mod shapes;
mod steps;
mod view;
mod words;

pub use candidate::Candidate;
pub use flow_word::{Access, Accesses, Kind, Place, Step};
pub use graph::Graph;
pub use view::{LaneAccesses, LaneStep, NewStep, StepView};
