//! Versions of the language.
ghost use Rattle.std.specs.Prelude.{◌≡◌};
ghost use Rattle.flow_grammar.specs.{has_delays};

/// The newest version. The oldest is 1.
pub const NEWEST: u64 = 2;

/// Whether the FIFOs of a version have delays of their own.
pub fn has_delays(version: u64) -> bool
    ensures { result ≡ has_delays version }
{
    version == NEWEST
}
