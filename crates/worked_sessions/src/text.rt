//! Texts of sessions, in parts.
use flow_word::OutOfMemory;
use std::alloc::Global;

/// The text of a session, in parts that follow one another. Sessions share some of their parts.
pub type SessionParts = &'static [&'static [u8]];

/// These parts as one text.
pub fn joined(alloc: Global, parts: &[&[u8]]) -> Result<Vec<u8>, OutOfMemory> {
    Ok(parts.concat(alloc)?)
}
