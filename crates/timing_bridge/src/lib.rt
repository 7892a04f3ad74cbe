//! The bridge from plans to the theory of the event engine: the lockstep machine's definitions obey the laws of counting, so
//! the laws of the theory speak of real plans, and of the turns that threads take at one core of a plan. Of all this only a turn and
//! an entry are types of the program. The functions have no body; each clause is a theorem on the definitions.
#![tactic(auto)]

mod entry;
mod laws;
mod turn;
mod turn_laws;

pub use entry::HubEntry;
pub use laws::{
    cores_show_history, edited_plans_agree, every_order_agrees, every_report, few_actions,
    ordinals_are_counts, outcomes_are_history, own_runs_are_the_same, plans_are_designs,
    steps_in_order,
};
pub use turn::HubTurn;
pub use turn_laws::{histories_are_legal, histories_grow, lent_runs_stay, turns_fit};
