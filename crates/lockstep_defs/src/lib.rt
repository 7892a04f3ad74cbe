//! The lockstep machine as definitions: what every simulation has to give. Nothing here runs in the program. The functions
//! have no body; each clause is a theorem on the definitions. Those of `examples` are computed from the definitions.
#![tactic(auto)]

mod examples;
mod laws;

pub use examples::{
    blocks_and_loops, deadlocks, delayed_fifos, delayed_queries_and_deadlocks, fifos, limits,
    own_runs, queries, sources_and_sinks,
};
pub use laws::{
    channels_are_queues, histories_are_own_runs, last_write_wins, live_iterations,
    quiet_clocks_end, reports_name_their_plans, settled_clocks, states_fit_modules,
};
