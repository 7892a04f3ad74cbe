//! Tests of a core: single actions, and edits. They have a crate of their own, since a crate is proved once more with its tests.
#![tactic(auto)]

#[cfg(test)]
mod actions;
#[cfg(test)]
mod again;
#[cfg(test)]
mod edits;
#[cfg(test)]
mod late;
#[cfg(test)]
mod orders;
#[cfg(test)]
mod ticks;
