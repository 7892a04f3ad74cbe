//! The smallest FIFOs that lose no clock: the advised depths, lowered FIFO after FIFO as long as the plan ends no later.
#![tactic(auto)]

mod bounds;
mod halving;
mod laws;
mod size_text;
mod sizing;

pub use halving::is_done_by;
pub use laws::{lowered_depths_are_least, sizes_lose_nothing};
pub use size_text::{SizeText, tell_sizes};
pub use sizing::{Sizes, find_sizes};
