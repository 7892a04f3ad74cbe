//! Sets of modules, as words of 64 bits.
#![tactic(auto)]

mod mask;
mod set;
mod word;

pub use mask::Mask;
pub use set::ModuleSet;
