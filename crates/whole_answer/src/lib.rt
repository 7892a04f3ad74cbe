//! The whole answer to the words of a command and the bytes of a session: the text that is written, and the status.
#![tactic(auto)]

mod advising;
mod answer;
mod ending;
mod host;
mod job;
mod laws;
mod making;
mod ordering;
mod program;
mod refusing;
mod showing;
mod simulator;
mod sizing;
mod status;
mod sweeping;

pub use laws::one_answer;
pub use program::omnisim;
pub use run_threads::{FreeGate, Gate};
pub use status::Status;
