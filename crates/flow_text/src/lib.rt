//! Reading session texts, by tables of what their statements declare.
#![tactic(auto)]

mod channels;
mod ends;
mod ensure;
mod inputs;
mod lines;
mod modules;
mod names;
mod operations;
mod progress;
mod reading;
mod tables;
mod timed;

pub use flow_grammar::{Code, ReadFail, TextFault};
pub use names::Names;
pub use reading::read_session;
pub use tables::Tables;
