//! Queries: their outcomes, from the cycles that were given so far, and the first module with the least cycle.
#![tactic(auto)]

mod candidates;
mod decision;
mod first;
mod rounds;

pub use candidates::CandidateList;
pub use decision::{Decision, decide, late};
pub use first::earliest;
