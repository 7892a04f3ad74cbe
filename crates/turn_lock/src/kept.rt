//! What a turn lock protects.
ghost use Rattle.std.specs.Prelude.{◌≡◌, ℕ, List, Option, length};

/// A value that stands for a list of entries, its history. The value may store its history or compute it. An entry bears the number
/// of a pass, or none.
pub trait Kept: Drop {
    /// What a turn adds to the history. Only contracts speak of entries: none need ever be made.
    type Entry;

    ghost history: { Self → List Self.Entry };

    ghost bearer: { Self.Entry → Option ℕ };

    /// The number of entries in the history.
    fn count(&self) -> u64
        ensures { result ≡ length (history self.now) };
}
