//! Tests of the hub, whose passes take their turns on one thread, and of whole simulations with threads. They have a crate of their
//! own, since a crate is proved once more with its tests.
#![tactic(auto)]

#[cfg(test)]
mod driven;
#[cfg(test)]
mod gates;
#[cfg(test)]
mod passes;
#[cfg(test)]
mod rounds;
#[cfg(test)]
mod simulating;
