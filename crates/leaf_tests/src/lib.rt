//! Tests of the engine's leaves and of the turn lock. They have a crate of their own, since a crate is proved once more with its
//! tests.
#![tactic(auto)]

#[cfg(test)]
mod graphs;
#[cfg(test)]
mod locks;
#[cfg(test)]
mod logs;
#[cfg(test)]
mod room;
#[cfg(test)]
mod tables;
#[cfg(test)]
mod walks;
