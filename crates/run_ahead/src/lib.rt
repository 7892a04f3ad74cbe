//! How far a module's run goes on what it is given ahead: the outcomes of its queries, and the values of its pops.
#![tactic(auto)]

mod mail;
mod replies;

pub use mail::{Burst, Mail, Task, work};
pub use module_interp::Marks;
pub use replies::{KnownReplies, Values, find_replies, first_missing};
