//! A lock that lends its value for one turn at a time, and passes that know how far the value's history has come.
#![tactic(auto)]

mod counts;
mod kept;
mod law;
mod lends;
mod lock;
mod pass;
mod plays;
mod view;

pub use counts::counts_are_of_calls;
pub use kept::Kept;
pub use pass::{Pass, Tried, Turn, TurnLock};
pub use view::{Joined, PassView};
