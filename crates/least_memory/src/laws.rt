//! The laws of the least memory, for any plan `p` that the engine takes.
ghost use Rattle.std.specs.Prelude.{◌≡◌, ℕ};
ghost use Rattle.least_memory.specs.{Plan, FitsEngine, verdict, with_depths, AreDepths, advised, IsNoLater, leasts, IsLeastMemory};

/// The least depths of any plan are within the language's limits. If the plan with the advised depths is done, it is done with the
/// least ones at most `slack` clocks later. No depths that are done by then take fewer bits, and none that take as many come
/// earlier in lexicographic order.
pub fn least_memory_is_least()
    ensures within { (slack : ℕ) (p : Plan) → FitsEngine p → AreDepths p (leasts slack p).depths }
    ensures told { (slack : ℕ) (p : Plan) → (leasts slack p).verdict ≡ verdict (with_depths p (leasts slack p).depths) }
    ensures in_time { (slack : ℕ) (p : Plan) → FitsEngine p
        → IsNoLater slack (verdict (with_depths p (advised p))) (leasts slack p).verdict }
    ensures least { (slack : ℕ) (p : Plan) → FitsEngine p
        → IsLeastMemory p slack (verdict (with_depths p (advised p))) (leasts slack p).depths }
{}
