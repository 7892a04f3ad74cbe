//! The form of a worked session.
use crate::text::SessionParts;

/// A session with options, and the answer that `run`, `alone` and `clock` must give. It was worked out by hand from the machine's
/// rules.
#[derive(Clone, Copy, Debug)]
pub struct Worked {
    /// The words after the command.
    pub options: &'static [&'static str],
    /// The session's text.
    pub text: SessionParts,
    /// The text of the answer.
    pub told: &'static [u8],
    /// The exit status of the program.
    pub status: u8,
}
