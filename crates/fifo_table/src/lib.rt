//! The FIFO table: the pushes and pops of each channel, by ordinal, and what each access waits for.
#![tactic(auto)]

mod channel;
mod enabler;
mod places;
mod pushes;
mod table;

pub use channel::{Pushed, TableChannel};
pub use enabler::Enabler;
pub use table::FifoTable;
