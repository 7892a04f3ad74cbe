//! The limits of a session that gives none of its own. Its operation limit depends on the scale.

/// The cycle limit of a session that gives none, in clocks.
pub const CYCLES: u64 = 1_000_000_000;
