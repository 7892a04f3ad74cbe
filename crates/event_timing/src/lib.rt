//! The theory of an engine that knows no clock and no contents of a FIFO: it agrees with the lockstep machine. Nothing here
//! runs in the program. The functions have no body; each clause is a theorem on the definitions.
#![tactic(auto)]

mod laws;

pub use laws::{
    action_bound, cores_grow, cycles_given, edited_cores, every_order_agrees, final_cores,
    final_reports, first_touched, found_by_counts, marks_stay, recorded_outcomes, running_ahead,
    tests_decide, verified_outcomes,
};
