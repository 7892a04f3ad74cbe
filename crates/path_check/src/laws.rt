//! The laws of paths of waits, for any plan `p` that the engine takes.
ghost use Rattle.std.specs.Prelude.{◌≡◌, ◌≢◌, ℕ, zero, suc, ◌+◌, ◌≤◌, IsTrue, List as Items};
ghost use Rattle.path_check.specs.{Plan, FitsEngine, verdict, design, lockstep_run, start_in, with_depths, AreDepths, AreDeeper};
ghost use Rattle.path_check.specs.{AsksNothing, moves_at, IsAfter};
ghost use Rattle.flow_design.specs.declared.report.Verdict.TheVariants.{Done};

/// What a path of waits shows where no operation is a query. If with other depths a module goes on at least w clocks after the
/// beginning, from a clock in which it moves, the plan with those depths ends after clock w. If those depths are no greater than
/// the plan's, a path may begin in any clock of the plan's run. If a path leads back to the module and clock where it began, a
/// clock or more later, the plan with those depths never ends.
pub fn paths_end_late()
    ensures late { (p : Plan) → FitsEngine p → AsksNothing p → (ds : Items ℕ) → AreDepths p ds → (m n f w : ℕ)
        → IsAfter (design p) (start_in (with_depths p ds)) (lockstep_run p) m zero n f w → IsTrue (moves_at p f n)
        → (clock : ℕ) → verdict (with_depths p ds) ≡ Done clock → suc w ≤ clock }
    ensures later { (p : Plan) → FitsEngine p → AsksNothing p → (ds : Items ℕ) → AreDepths p ds → AreDeeper p ds p.depths
        → (m e n f w : ℕ) → IsAfter (design p) (start_in (with_depths p ds)) (lockstep_run p) m e n f w → IsTrue (moves_at p f n)
        → (clock : ℕ) → verdict (with_depths p ds) ≡ Done clock → suc (e + w) ≤ clock }
    ensures never { (p : Plan) → FitsEngine p → AsksNothing p → (ds : Items ℕ) → AreDepths p ds → (m e w : ℕ)
        → IsAfter (design p) (start_in (with_depths p ds)) (lockstep_run p) m e m e (suc w) → IsTrue (moves_at p e m)
        → (clock : ℕ) → verdict (with_depths p ds) ≢ Done clock }
{}
