//! The laws of walks, for any plan `p` that the engine takes.
ghost use Rattle.std.specs.Prelude.{◌≡◌, ℕ, suc, ◌+◌, ◌<◌, ◌≤◌, [], ◌∷◌, ◌++◌, List as Items, length, slice_index, slice_set, replicate};
ghost use Rattle.engine_report.specs.{Plan, FitsEngine, clock_of, ModuleState, HistoryStep, history, verdict, IsFinal, IsAgreed, design};
ghost use Rattle.engine_report.specs.{lockstep_run, core_step, IsWalked, AreLate};
ghost use Rattle.event_timing.specs.Core.{Core};

/// A walk begins with no step. It may pass the next step of a module in its clock, if it is not beyond that module. It may skip
/// modules, and go on to a later clock. Once it has passed all steps with a cycle of a final core, they are the history up to the
/// verdict. Before that they begin the history, where all other steps with a cycle come later.
pub fn walks_are_histories()
    ensures begins { (p : Plan) (x : Core ModuleState) (n : ℕ) → IsWalked p x [] (replicate n 0) 0 0 }
    ensures passes { (p : Plan) (x : Core ModuleState) (done : Items HistoryStep) (passed : Items ℕ) (clock next i : ℕ)
        → IsWalked p x done passed clock next → i < length passed → next ≤ i → x.cycle i (slice_index passed i) ≡ clock
        → IsWalked p x (done ++ core_step p x i (slice_index passed i) ∷ []) (slice_set passed i (slice_index passed i + 1)) clock (suc i) }
    ensures skips { (p : Plan) (x : Core ModuleState) (done : Items HistoryStep) (passed : Items ℕ) (clock next further : ℕ)
        → IsWalked p x done passed clock next → next ≤ further → IsWalked p x done passed clock further }
    ensures goes_on { (p : Plan) (x : Core ModuleState) (done : Items HistoryStep) (passed : Items ℕ) (clock next later : ℕ)
        → IsWalked p x done passed clock next → clock < later → IsWalked p x done passed later 0 }
    ensures ends { (p : Plan) → FitsEngine p → (x : Core ModuleState) → IsAgreed (design p) (lockstep_run p) p.cycles x
        → IsFinal (design p) p.cycles x → (done : Items HistoryStep) (passed : Items ℕ) (clock next : ℕ)
        → IsWalked p x done passed clock next → ((i : ℕ) → slice_index passed i ≡ x.timed i)
        → done ≡ history p (clock_of (verdict p)) }
    ensures leads { (p : Plan) → FitsEngine p → (x : Core ModuleState) → IsAgreed (design p) (lockstep_run p) p.cycles x
        → IsFinal (design p) p.cycles x → (done : Items HistoryStep) (passed : Items ℕ) (clock next : ℕ)
        → IsWalked p x done passed clock next → ((i : ℕ) → slice_index passed i ≤ x.timed i) → AreLate x passed clock next
        → (rest : Items HistoryStep) × (done ++ rest ≡ history p (clock_of (verdict p))) }
{}
