//! Checking a session that was read: the rules that need the whole of it, and its plan.
#![tactic(auto)]

mod item;
mod laws;
mod place;
mod ports;
mod rules;
mod session;
mod users;

pub use laws::{
    checked_plans_fit, fitting_plans_are_checked, read_edits_fit, read_sessions_have_plans,
    refusals_tell_the_first,
};
pub use session::check;
pub use session_plan::Checked;
