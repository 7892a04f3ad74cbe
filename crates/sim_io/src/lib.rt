//! The outside: sources of bytes and sinks for bytes, which count their faults.
#![tactic(auto)]

mod memory_sink;
mod memory_source;
mod reading;
mod std_ends;
mod telling;
mod traits;
mod writing;

pub use memory_sink::MemSink;
pub use memory_source::MemSource;
pub use reading::{TakeFault, read_all};
pub use std_ends::{StdSink, StdSource};
pub use telling::{PIECE, TellFault, write_full};
pub use traits::{Failed, Sink, Source};
pub use writing::{PutFault, write_all_of};
