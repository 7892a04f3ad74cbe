//! The actions of a core by name: which are permitted, or else the first condition that fails; and each one done by itself.
#![tactic(auto)]

mod acting;
mod actions;
mod permitting;
mod searching;

pub use acting::act;
pub use actions::{ActFault, Action, Cause};
pub use permitting::permits;
