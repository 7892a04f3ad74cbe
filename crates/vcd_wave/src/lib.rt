//! The wave of a plan: a value change dump that tells how many elements each FIFO holds in each clock. And reading one: a text is the
//! text of at most one wave, so the text of a plan's wave tells what each FIFO holds in each clock up to the verdict's, and nothing
//! else.
#![tactic(auto)]

mod binary;
mod fill;
mod header;
mod laws;
mod lines;
mod numbers;
mod reading;
mod scan;
mod text;
mod walk;

pub use fill::wave_fill;
pub use laws::{waves_read_back, waves_tell_fills};
pub use text::wave_text;
