//! Recorded outcomes beside found ones: whether a query differs, and whether one record goes on where the other ends. The plan after
//! edits of depths, and the count of runs that its reports tell.
#![tactic(auto)]

mod count;
mod guard;
mod laws;
mod prefix;

pub use count::RunCount;
pub use guard::{Guard, compare};
pub use laws::edits_in_order;
pub use prefix::one_is_prefix;
pub use query_log::Query;
