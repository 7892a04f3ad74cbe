//! The law of the two counts of a pass.
ghost use Rattle.std.specs.Prelude.{◌≡◌, ℕ, ◌+◌};
ghost use Rattle.turn_lock.specs.{PassView, IsLedBy};

use crate::kept::Kept;

/// Only calls of the lock move the two counts of a pass: from one time to a later one, it has handed back as many turns, and lost
/// as many tries, as its calls in between did.
pub fn counts_are_of_calls<K: Kept>()
    ensures turns { (v w : PassView K.Entry) (turns lost : ℕ) → IsLedBy K.bearer v turns lost w → w.turns ≡ v.turns + turns }
    ensures lost { (v w : PassView K.Entry) (turns lost : ℕ) → IsLedBy K.bearer v turns lost w → w.lost ≡ v.lost + lost }
{}
