//! The laws of the text on the latency.
ghost use Rattle.std.specs.Prelude.{◌≡◌, ℕ, suc, ◌+◌, Bool, true, false};
ghost use Rattle.path_text.specs.{Plan, clock_of, FitsEngine, verdict, AsksNothing, IsEnd, MovesLast, NoneMoves, path_text, crossed_clocks};
ghost use Rattle.path_text.specs.{spent_clocks, told_clocks};

/// The text accounts for each clock up to the last one in which a module moves, whatever the verdict is. Three sums make up that
/// clock plus one, or 0 where no module moves: the clocks of the lines `spend`; over the lines `cross empty`, the number of each
/// times its FIFO's delay less 1; and the clocks of waiting of the lines `poll empty`. They make up the verdict's clock, unless the
/// verdict is the cycle limit. If polls are not asked for, nothing waits.
pub fn numbers_add_up()
    ensures last_move { (p : Plan) → FitsEngine p → (polls : Bool) (t : ℕ) → MovesLast p (clock_of (verdict p)) t
        → told_clocks polls p ≡ suc t }
    ensures none { (p : Plan) → FitsEngine p → (polls : Bool) → NoneMoves p (clock_of (verdict p)) → told_clocks polls p ≡ 0 }
    ensures whole { (p : Plan) → FitsEngine p → (polls : Bool) → IsEnd (verdict p) → told_clocks polls p ≡ clock_of (verdict p) }
    ensures without_polls { (p : Plan) → told_clocks false p ≡ spent_clocks false p + crossed_clocks false p }
{}

/// Where no operation is a query, the text is the same with polls as without.
pub fn nothing_is_polled()
    ensures { (p : Plan) → FitsEngine p → AsksNothing p → (events : Bool) → path_text events true p ≡ path_text events false p }
{}
