//! Tests of the whole answer. They have a crate of their own, since a crate is proved once more with its tests.
#![tactic(auto)]

#[cfg(test)]
mod advised;
#[cfg(test)]
mod asking;
#[cfg(test)]
mod commanding;
#[cfg(test)]
mod ends;
#[cfg(test)]
mod exploring;
#[cfg(test)]
mod further;
#[cfg(test)]
mod gates;
#[cfg(test)]
mod limited;
#[cfg(test)]
mod refusing;
#[cfg(test)]
mod scales;
#[cfg(test)]
mod views;
#[cfg(test)]
mod waves;
#[cfg(test)]
mod working;
