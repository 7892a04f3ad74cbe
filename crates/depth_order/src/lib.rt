//! What the depths of FIFOs do to a plan's clocks, where no operation is a query: more depth is never slower, and where the chain of
//! clocks that makes the latency crosses no full FIFO, no depths help. The functions here have no body; each clause is a theorem on the
//! definitions.
#![tactic(auto)]

mod laws;
mod link;

pub use laws::{
    chains_are_whole, more_depth_is_never_slower, no_depth_helps, quiet_plans_answer_nothing,
};
pub use link::Link;
