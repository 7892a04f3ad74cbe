//! Writing the canonical text of a session.
#![tactic(auto)]

mod expression;
mod laws;
mod operation;
mod session;

pub use laws::reads_back;
pub use session::print_session;
