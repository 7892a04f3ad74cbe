//! The laws of fills.
ghost use Rattle.std.specs.Prelude.{◌≡◌, ℕ, ◌+◌, ◌<◌, ◌≤◌, IsTrue, length, slice_index};
ghost use Rattle.flow_word.specs.declared.access.Side.TheVariants.{Pop, Push};
ghost use Rattle.timelines.specs.{Plan, is_fifo, kind_at, FitsEngine, fill, moved_before, last_clock};

/// In each clock a FIFO holds what was pushed on it before, less what was popped off it, and that is at most its depth. The clock
/// of the verdict is at most the cycle limit.
pub fn fills_are_counted()
    ensures counted { (p : Plan) → FitsEngine p → (f c : ℕ) → f < length p.design.channels → IsTrue (is_fifo (kind_at p f))
        → fill p f c + moved_before p Pop f c ≡ moved_before p Push f c }
    ensures within { (p : Plan) → FitsEngine p → (f c : ℕ) → f < length p.design.channels → IsTrue (is_fifo (kind_at p f))
        → fill p f c ≤ slice_index p.depths f }
    ensures last { (p : Plan) → last_clock p ≤ p.cycles }
{}
