//! The text of `stalls`: where a plan's time is lost.
#![tactic(auto)]

mod causes;
mod fifos;
mod polls;
mod ports;
mod queries;
mod text;

pub use queries::is_missed;
pub use text::stalls_text;
