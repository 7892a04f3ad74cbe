//! The laws of spans.
ghost use Rattle.std.specs.Prelude.{ℕ, ◌≡◌, ◌≢◌, ◌+◌, ◌<◌, Bool, None, Contains, length, slice_index_or, sum_by, List as Items};
ghost use Rattle.std.specs.List.{AllAdjacentBelow, range_with_len};
ghost use Rattle.flow_word.specs.declared.access.Side.TheVariants.{Pop, Push};
ghost use Rattle.timelines.specs.{Plan, FitsEngine, Doing, Span, doing, AreSpansBelow, HasClock, GoesOnFrom, clocks_in, moved_clocks};
ghost use Rattle.timelines.specs.{still_clocks, still_clocks_at, spans_clocks, IsOverFrom};

/// A module has exactly one list of spans below a clock.
pub fn spans_are_one()
    ensures there { (p : Plan) (i end : ℕ) → (spans : Items Span) × AreSpansBelow p i end spans }
    ensures only { (p : Plan) (i end : ℕ) (a b : Items Span) → AreSpansBelow p i end a → AreSpansBelow p i end b → a ≡ b }
{}

/// The spans below a clock have each clock in which the module is not over. The first begins in clock 0. Each other one begins
/// where the one before it ends, and says something else.
pub fn spans_cover_clocks()
    ensures covered { (p : Plan) (i end : ℕ) (spans : Items Span) → AreSpansBelow p i end spans → (c : ℕ) → c < end → doing p c i ≢ None
        → (s : Span) × Contains spans s × HasClock s c }
    ensures begins { (p : Plan) (i end : ℕ) (spans : Items Span) → AreSpansBelow p i end spans → (s : Span) → 0 < length spans
        → (slice_index_or spans 0 s).first ≡ 0 }
    ensures go_on { (p : Plan) (i end : ℕ) (spans : Items Span) → AreSpansBelow p i end spans
        → AllAdjacentBelow GoesOnFrom spans (length spans) }
{}

/// The spans below a clock account for all clocks in which a module does something. The clocks in which it moves and those in which
/// it stalls add up to the clock in which it is over, or to the verdict's. The clocks of all causes add up to those in which it
/// stalls.
pub fn clocks_add_up()
    ensures spans { (test : Doing → Bool) (p : Plan) (i end : ℕ) (spans : Items Span) → AreSpansBelow p i end spans
        → spans_clocks test spans ≡ clocks_in test p i end }
    ensures over { (p : Plan) (i : ℕ) → IsOverFrom p i (moved_clocks p i + still_clocks p i) }
    ensures causes { (p : Plan) (i : ℕ) → FitsEngine p
        → still_clocks p i ≡ sum_by (λ f. still_clocks_at p i Pop f + still_clocks_at p i Push f)
        (range_with_len 0 (length p.design.channels)) }
{}
