//! The query log: the outcomes of each module's queries, and which of them are verified.
#![tactic(auto)]

mod log;
mod query;
mod roomy;

pub use log::QueryLog;
pub use query::Query;
