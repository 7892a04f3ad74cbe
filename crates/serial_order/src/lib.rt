//! Which modules are serial: those whose pipelined loops do what the same loops do with one iteration after the other.
#![tactic(auto)]

mod check;
mod laws;
mod order;
mod rules;
mod uses;

pub use check::check_order;
pub use laws::serial_modules_equal_plain_loops;
pub use order::{Order, Used};
