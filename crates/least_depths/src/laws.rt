//! The laws of lowered depths, for any plan `p` that the engine takes.
ghost use Rattle.std.specs.Prelude.{◌≡◌, ℕ, ◌≤◌, length};
ghost use Rattle.least_depths.specs.{Plan, FitsEngine, verdict, with_depths, AreDepths, AreDeeper, AsksNothing, IsDoneBy, advised, sizes};
ghost use Rattle.least_depths.specs.{IsNoLater, IsLeast, lowered, AreLeast, all_bits};

/// The lowered depths are within the language's limits, and none is greater than before. A plan that is done by the clock stays
/// done by it. Where no operation is a query, no lower depths are done by that clock. For each FIFO, no more depths are tried than
/// its depth has binary digits.
pub fn lowered_depths_are_least()
    ensures depths { (p : Plan) → FitsEngine p → (clock n : ℕ) → AreDepths p (lowered p clock n).plan.depths }
    ensures lower { (p : Plan) → FitsEngine p → (clock n : ℕ) → AreDeeper p (lowered p clock n).plan.depths p.depths }
    ensures in_time { (p : Plan) → FitsEngine p → (clock n : ℕ) → IsDoneBy clock (verdict p)
        → IsDoneBy clock (verdict (lowered p clock n).plan) }
    ensures least { (p : Plan) → FitsEngine p → AsksNothing p → (clock : ℕ)
        → AreLeast p clock (lowered p clock (length p.design.channels)).plan.depths }
    ensures few { (p : Plan) → FitsEngine p → (clock : ℕ) → (lowered p clock (length p.design.channels)).tries ≤ all_bits p.depths }
{}

/// The sizes of any plan are within the language's limits and no greater than the advised depths. If the plan with the advised
/// depths is done, it is done with the sizes at most `slack` clocks later. Where no operation is a query, no depths are done
/// earlier than the advised ones; with no slack, the sizes have the verdict of the advised depths; and no lower depths are done at
/// most `slack` clocks later, so no place is superfluous. No more depths are tried than the advised depths have binary digits in
/// all.
pub fn sizes_lose_nothing()
    ensures within { (slack : ℕ) (p : Plan) → FitsEngine p → AreDepths p (sizes slack p).depths }
    ensures lower { (slack : ℕ) (p : Plan) → FitsEngine p → AreDeeper p (sizes slack p).depths (advised p) }
    ensures told { (slack : ℕ) (p : Plan) → FitsEngine p → (sizes slack p).verdict ≡ verdict (with_depths p (sizes slack p).depths) }
    ensures in_time { (slack : ℕ) (p : Plan) → FitsEngine p
        → IsNoLater slack (verdict (with_depths p (advised p))) (sizes slack p).verdict }
    ensures kept { (p : Plan) → FitsEngine p → AsksNothing p → (sizes 0 p).verdict ≡ verdict (with_depths p (advised p)) }
    ensures least { (slack : ℕ) (p : Plan) → FitsEngine p → AsksNothing p
        → IsLeast p slack (verdict (with_depths p (advised p))) (sizes slack p).depths }
    ensures few { (slack : ℕ) (p : Plan) → FitsEngine p → (sizes slack p).tries ≤ all_bits (advised p) }
{}
