//! Cuts, and the depths of FIFOs that meet all cuts with the fewest bits. A cut is a list of needs, at least one of which must be met
//! so that a plan ends by a clock. A path of steps that wait for one another shows each cut that is found.
#![tactic(auto)]

mod clocks;
mod cuts;
mod finding;
mod late;
mod order;
mod plan_cuts;
mod raised;
mod raising;
mod rises;
mod search;
mod trails;
mod waits;

pub use cuts::{Cut, Demands, Need};
pub use finding::cheapest;
pub use order::bits_of;
pub use plan_cuts::find_cut;
pub use raised::deeper_ones;
