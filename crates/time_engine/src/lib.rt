//! Timing: the cycle of a module's next step, from the cycles that were given so far.
#![tactic(auto)]

mod known;
mod timing;

pub use event_graph::Candidate;
pub use known::{Known, known_of};
pub use timing::{assign, candidate, candidate_and_queries, last_cycle, latest, query_count};
