//! The depths of FIFOs that take the fewest bits of memory, of all with which a plan loses no more than some clocks.
#![tactic(auto)]

mod demands;
mod finding;
mod laws;
mod least_text;
mod trying;

pub use finding::{Leasts, find_least};
pub use laws::least_memory_is_least;
pub use least_text::{LeastText, tell_least};
