//! What is read off an engine: the report of a plan and the spans of its modules, at its end, and a walk over the steps with cycles, in
//! the order of the history. That such walks are in order, and at their end the history, is a law of definitions.
#![tactic(auto)]

mod answers;
mod events;
mod held;
mod outputs;
mod report;
mod spans;
mod verdict;
mod walk;
mod walk_laws;

pub use events::{TimedStep, sorted_steps};
pub use report::{report_of, verdict_of};
pub use spans::spans_of;
pub use walk::StepWalk;
pub use walk_laws::walks_are_histories;
