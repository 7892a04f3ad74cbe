//! Tests of words, ends, command lines and schedules, and of the crates that read, print, check and run sessions. They have a crate
//! of their own, since a crate is proved once more with its tests.
#![tactic(auto)]

#[cfg(test)]
mod command_lines;
#[cfg(test)]
mod elaborating;
#[cfg(test)]
mod ends;
#[cfg(test)]
mod generated;
#[cfg(test)]
mod module_runs;
#[cfg(test)]
mod printing;
#[cfg(test)]
mod reading;
#[cfg(test)]
mod schedules;
#[cfg(test)]
mod tables;
#[cfg(test)]
mod tokens;
#[cfg(test)]
mod words;
