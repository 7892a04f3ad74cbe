//! Sources and sinks.
ghost use Rattle.std.specs.Prelude.{◌≡◌, ◌<◌, ℕ, List, Bool, true, false, length, IfOk, OnOk};
ghost use Rattle.std.specs.{declared.option.Option.Option, Io.ReadsAtMost, Io.WritesAtMost};
ghost use Rattle.std.specs.Io.KnownBytes.{ReadConsumes, WriteAppends, Keeps};
ghost use Rattle.sim_io.specs.{HasCause};

use thiserror::Error;

/// The source or the sink has failed, and has counted this fault.
#[derive(Clone, Copy, Debug, PartialEq, Eq, Error)]
#[error("input or output has failed")]
pub struct Failed;

/// Something to take bytes from.
pub trait Source {
    /// The bytes that are left in the source, where it tells them.
    ghost left: { Self → Option (List ℕ) };

    /// How often the source has failed so far. The count never falls, and stays at the greatest u64.
    ghost faults: { Self → ℕ };

    /// Moves the next bytes to the beginning of `into`, and answers how many they are. An answer of 0, where `into` has
    /// room, is the end of the input. `Failed` is counted, and leaves all bytes in the source.
    fn take(&mut self, into: &mut [u8]) -> Result<usize, Failed>
        ensures bound { ReadsAtMost result into.new }
        ensures bytes { ReadConsumes (left self.old) (left self.new) result into.new }
        ensures cause { HasCause (faults self.old) (faults self.new) result };
}

/// Something to put bytes into.
pub trait Sink {
    /// The bytes that the sink holds, where it tells them.
    ghost held: { Self → Option (List ℕ) };

    /// How often the sink has failed so far. The count never falls, and stays at the greatest u64.
    ghost faults: { Self → ℕ };

    /// Whether the sink has finished all that it holds.
    ghost is_finished: { Self → Bool };

    /// Takes a prefix of the piece, and answers how many bytes it has: at least one, if the piece has any. Every call
    /// makes the sink unfinished. `Failed` is counted, and leaves what the sink holds as it was.
    fn put(&mut self, piece: &[u8]) -> Result<usize, Failed>
        ensures bound { WritesAtMost result piece.now }
        ensures some { IfOk result (λ n. 0 < length piece.now → 0 < n) }
        ensures bytes { WriteAppends (held self.old) (held self.new) result piece.now }
        ensures unfinished { is_finished self.new ≡ false }
        ensures cause { HasCause (faults self.old) (faults self.new) result };

    /// Finishes what the sink holds. The bytes stay as they were, and `Failed` is counted.
    fn finish(&mut self) -> Result<(), Failed>
        ensures finished { OnOk result (is_finished self.new ≡ true) }
        ensures bytes { Keeps (held self.old) (held self.new) }
        ensures cause { HasCause (faults self.old) (faults self.new) result };
}
