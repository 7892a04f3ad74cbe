//! From the statements of a session to its plan and its edits: numbers replace names.
#![tactic(auto)]

mod channels;
pub mod defaults;
mod inputs;
mod laws;
mod modules;
mod names;
mod numbering;
mod scope;
mod section;
mod whole;

pub use laws::versions_agree;
pub use section::{Level, Sort};
pub use whole::{Checked, elaborate};
