//! What makes a plan's latency: the chain of clocks back from its end, and the text that tells in which modules it spends clocks and
//! which channels it crosses; where that is asked for, also the polls that it follows.
#![tactic(auto)]

mod chain_laws;
mod counts;
mod finds;
mod laws;
mod lines;
mod link;
mod moved;
mod owners;
mod search;
mod spans;
mod text;
mod walk;

pub use chain_laws::chains_go_back;
pub use laws::{nothing_is_polled, numbers_add_up};
pub use link::{Chain, Polled, PolledLink};
pub use text::path_text;
pub use walk::{At, find_path};
