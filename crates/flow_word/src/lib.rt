//! Words, widths, numbers, lists and FIFO accesses: what every other crate stands on.
#![tactic(auto)]

mod access;
mod accesses;
mod boxed;
mod copying;
mod list;
mod memory;
mod number;
mod queue;
mod roomy;
mod steps;
mod width;

pub use access::{Access, Kind, Place, Port, Side, Step};
pub use accesses::Accesses;
pub use boxed::Boxed;
pub use copying::TryCopy;
pub use list::{Flags, List, Words};
pub use memory::OutOfMemory;
pub use number::{NumberFault, read_number};
pub use queue::Queue;
pub use roomy::RoomyList;
pub use steps::Steps;
pub use width::{Width, cut};
