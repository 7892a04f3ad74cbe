//! The laws of turns, for any design `d` over states of any type `S`, any history `h` of its lockstep machine, and any plan `p`.
ghost use Rattle.std.specs.Prelude.{◌≡◌, ℕ, ◌≤◌, List, ◌++◌, false, Some};
ghost use Rattle.timing_bridge.specs.{Plan, ModuleState, FitsEngine, design, lockstep_run, HubTurn, lent_at, after_timed, then_on, timings};
ghost use Rattle.timing_bridge.specs.{earliest_of, turn_on, turns_on, IsTurnOf, TurnsOf, AreOfOthers, taker, IsHistoryOf, IsTurn};
ghost use Rattle.timing_bridge.specs.{standing_of, turned_by, Design, IsDesign, Trace, IsHistory, IsAgreed, AllVerified, IsInside, Action};
ghost use Rattle.timing_bridge.specs.{ActsAll, IsNoRunOf, IsFinal};
ghost use Rattle.timing_bridge.specs.Turned.{Turned};
ghost use Rattle.timing_bridge.specs.declared.turn.HubTurn.TheVariants.{Lent, Ran, Timed, Short};
ghost use Rattle.event_timing.specs.Core.{Core};

/// A turn that the computed test accepts is legal. The test accepts each legal lending, each legal return, and each legal turn in
/// which memory ran out; the Assigns and Answers of a turn in the order of rounds; and a turn with the one Earliest. For the
/// Earliest the core must have emitted steps of the design's modules alone, as each core that agrees has.
pub fn turns_fit<S>()
    ensures legal { (d : Design S) (h : Trace S) → IsDesign d → IsHistory d h → (limit : ℕ) (v w : Turned S)
        → IsAgreed d h limit v.core → AllVerified v.core → (turn : HubTurn) → turn_on d limit v turn ≡ Some w → IsTurnOf d limit v turn w }
    ensures lent { (d : Design S) (limit : ℕ) (v : Turned S) (q m : ℕ) (w : Turned S) → IsTurnOf d limit v (Lent q m) w
        → turn_on d limit v (Lent q m) ≡ Some w }
    ensures ran { (d : Design S) (limit : ℕ) (v : Turned S) (q m n : ℕ) (w : Turned S) → IsTurnOf d limit v (Ran q m n) w
        → turn_on d limit v (Ran q m n) ≡ Some w }
    ensures timed { (d : Design S) (limit : ℕ) (v : Turned S) (q n : ℕ) (z : Core S) → v.short ≡ false → 1 ≤ n
        → timings d limit n 0 v.core ≡ Some z → turn_on d limit v (Timed q n) ≡ Some (after_timed v z) }
    ensures earliest { (d : Design S) (limit : ℕ) (v : Turned S) (q : ℕ) (z : Core S) → v.short ≡ false
        → IsInside d v.core → earliest_of d limit v.core ≡ Some z
        → turn_on d limit v (Timed q 1) ≡ Some (after_timed v z) }
    ensures short { (d : Design S) (limit : ℕ) (v : Turned S) (q : ℕ) (w : Turned S) → IsTurnOf d limit v (Short q) w
        → turn_on d limit v (Short q) ≡ Some w }
{}

/// Histories only grow: turns lead where their first part leads, and from there the rest. After a final core the only legal turn is
/// one in which memory ran out, and the core stays.
pub fn histories_grow<S>()
    ensures joined { (d : Design S) (limit : ℕ) (v : Turned S) (turns more : List HubTurn)
        → turns_on d limit v (turns ++ more) ≡ then_on (turns_on d limit v turns) (λ u. turns_on d limit u more) }
    ensures final_turn { (d : Design S) (limit : ℕ) (v w : Turned S) → IsFinal d limit v.core → (turn : HubTurn)
        → IsTurnOf d limit v turn w → (turn ≡ Short (taker turn)) × (w.core ≡ v.core) }
    ensures final_stays { (d : Design S) (limit : ℕ) (v w : Turned S) → IsFinal d limit v.core → (turns : List HubTurn)
        → TurnsOf d limit v turns w → w.core ≡ v.core }
{}

/// A module that is lent to a pass stays lent while other passes take turns, and these turns are permitted actions without a Run of
/// it.
pub fn lent_runs_stay<S>()
    ensures { (d : Design S) (limit : ℕ) (v w : Turned S) (q m : ℕ) → lent_at v m ≡ Some q → (turns : List HubTurn)
        → AreOfOthers q turns → TurnsOf d limit v turns w
        → (lent_at w m ≡ Some q) × ((actions : List Action) × IsNoRunOf m actions × ActsAll d limit v.core actions w.core) }
{}

/// A history that the computed test accepts is legal. A legal history is a list of permitted actions from the opening core on. So
/// the core after it agrees with the plan's lockstep run, and all its outcomes are verified.
pub fn histories_are_legal()
    ensures legal { (p : Plan) → FitsEngine p → (turns : List HubTurn) (v : Turned ModuleState) → standing_of p turns ≡ Some v
        → IsHistoryOf p turns v }
    ensures agrees { (p : Plan) → FitsEngine p → (turns : List HubTurn) (v : Turned ModuleState) → IsHistoryOf p turns v
        → IsAgreed (design p) (lockstep_run p) p.cycles v.core }
    ensures verified { (p : Plan) → FitsEngine p → (turns : List HubTurn) (v : Turned ModuleState) → IsHistoryOf p turns v
        → AllVerified v.core }
    ensures turn { (p : Plan) → FitsEngine p → (turns : List HubTurn) (v w : Turned ModuleState) → IsHistoryOf p turns v
        → (turn : HubTurn) → turned_by p v turn ≡ Some w → IsTurn p v turn w }
{}
