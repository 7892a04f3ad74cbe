//! What happened in a plan, as a text: its log, with a line for each access that was done, and its trace in the Trace Event Format,
//! with a track for each module and a counter for each FIFO.
#![tactic(auto)]

mod events;
mod fills;
mod laws;
mod log;
mod trace;

pub use laws::tracks_have_the_spans;
pub use log::log_text;
pub use trace::trace_text;
