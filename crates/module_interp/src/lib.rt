//! A module's own run, ahead of time, on the replies that it is fed. Local clocks without work are jumped over.
#![tactic(auto)]

mod answers;
mod counts;
mod laws;
mod making;
mod marks;
mod own_channels;
mod path;
mod quiet;
mod run;
mod tally;

pub use answers::{Answers, StepReplies};
pub use flow_design::{Advance, Reply};
pub use laws::{gaps_are_short, queries_are_few, rests_are_own_runs};
pub use marks::{MarkHead, MarkParts, Marks};
pub use own_channels::OwnChannels;
pub use run::ModuleRun;
