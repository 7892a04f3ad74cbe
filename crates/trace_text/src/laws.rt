//! The law of the tracks.
ghost use Rattle.std.specs.Prelude.{ℕ};
ghost use Rattle.trace_text.specs.{Plan, AreSpans, spans_of};

/// A module's track has exactly its spans, in order of time: the maximal intervals below the verdict's clock in which it moves
/// throughout, or stalls throughout for one cause.
pub fn tracks_have_the_spans()
    ensures { (p : Plan) (i : ℕ) → AreSpans p i (spans_of p i) }
{}
