//! The laws of the bridge, for any plan `p` that the engine takes.
ghost use Rattle.std.specs.Prelude.{ℕ, true, ◌≡◌, suc, ◌+◌, ◌*◌, ◌<◌, ◌≤◌, List, [], ◌∷◌, Some, map, length, slice_index};
ghost use Rattle.std.specs.List.{range_with_len};
ghost use Rattle.timing_bridge.specs.{Side, Edit, Plan, ModuleState, Reply, with_depth, EditFits, FitsEngine, clock_of, HistoryStep, moved};
ghost use Rattle.timing_bridge.specs.{history, verdict, own_run, report, steps_of, outcomes, IsDesign, IsHistory, done, candidate};
ghost use Rattle.timing_bridge.specs.{AreOwnMarks, IsAgreed, IsBounded, edited, after_edit, IsUntouchedByCycles, opening_core};
ghost use Rattle.timing_bridge.specs.{core_accesses, core_tally, core_reply, has_query, view, Action, ActsAll, MayAnswer, MayEarliest};
ghost use Rattle.timing_bridge.specs.{IsFinal, new_flags, design, lockstep_run, AreTold, HasComeTo, core_replies, outcomes_by};
ghost use Rattle.timing_bridge.specs.{first_requests, IsNextInHistory, core_step, core_report, core_verdict, AreInOrder, AreSorted};
ghost use Rattle.timing_bridge.specs.{steps_at};
ghost use Rattle.event_timing.specs.Core.{Core};
ghost use Rattle.event_timing.specs.Machines as theory;

/// The plan's modules are machines of the theory, its lockstep run obeys the laws of counting, and no module's own run has more
/// steps than the operation limit.
pub fn plans_are_designs()
    ensures design { (p : Plan) → FitsEngine p → IsDesign (design p) }
    ensures history { (p : Plan) → FitsEngine p → IsHistory (design p) (lockstep_run p) }
    ensures bounded { (p : Plan) → FitsEngine p → IsBounded (design p) p.ops }
{}

/// A module's own run, local clock by local clock, is the theory's own run, as long as it has made no more steps than there are
/// replies. Its steps are the theory's: each has its quiet clocks as gap, and the requests of the state after them. Its state is
/// the theory's after the latest step and some quiet clocks. The replies may be those that a core gives to emitted steps.
pub fn own_runs_are_the_same()
    ensures same { (p : Plan) → FitsEngine p → (i : ℕ) → i < length p.design.modules
        → (r : ℕ → List theory.Reply) (replies : List (List Reply)) → AreTold p i r replies
        → (n : ℕ) → length (own_run p i replies n).steps ≤ length replies → (clocks : ℕ) × HasComeTo p i r (own_run p i replies n) clocks }
    ensures told { (p : Plan) (x : Core ModuleState) → AreOwnMarks (design p) x → (i n : ℕ) → n ≤ x.emitted i
        → AreTold p i (core_reply (design p) x i) (core_replies p x i n) }
{}

/// A core that permitted actions make of the opening core agrees with the plan's lockstep run, in whatever order they come.
pub fn every_order_agrees()
    ensures { (p : Plan) → FitsEngine p → (limit : ℕ) (actions : List Action) (x : Core ModuleState)
        → ActsAll (design p) limit (opening_core (design p)) actions x → IsAgreed (design p) (lockstep_run p) limit x }
{}

/// In a core that agrees, a module's steps with a cycle are its first steps in the history, each with its clock, accesses, values
/// and outcomes. Where the core has all steps before a clock, they are as many as the history does before it.
pub fn cores_show_history()
    ensures { (p : Plan) → FitsEngine p → (limit : ℕ) (x : Core ModuleState) → IsAgreed (design p) (lockstep_run p) limit x
        → (i : ℕ) → i < length p.design.modules → (c : ℕ) → done (design p) (lockstep_run p) i c ≤ x.timed i
        → steps_of i (history p c) ≡ map (core_step p x i) (range_with_len 0 (done (design p) (lockstep_run p) i c)) }
{}

/// A determined step is the module's next step in the history, in the determined clock. Its outcomes there are those that an Answer
/// or an Earliest finds, and those that are recorded and verified.
pub fn outcomes_are_history()
    ensures determined { (p : Plan) → FitsEngine p → (limit : ℕ) (x : Core ModuleState) → IsAgreed (design p) (lockstep_run p) limit x
        → (i c : ℕ) → candidate (design p) (view (design p) x) i ≡ Some c
        → (s : HistoryStep) × (s.clock ≡ c) × IsNextInHistory p x i (suc c) s }
    ensures answered { (p : Plan) → FitsEngine p → (limit : ℕ) (x : Core ModuleState) → IsAgreed (design p) (lockstep_run p) limit x
        → (i c : ℕ) → MayAnswer (design p) limit x i c → (s : HistoryStep) × (s.clock ≡ c) × IsNextInHistory p x i limit s
        × (outcomes (s ∷ []) ≡ outcomes_by (first_requests p x i) (new_flags (design p) x i c)) }
    ensures earliest { (p : Plan) → FitsEngine p → (limit : ℕ) (x : Core ModuleState) → IsAgreed (design p) (lockstep_run p) limit x
        → (i c : ℕ) → MayEarliest (design p) limit x i c → (s : HistoryStep) × (s.clock ≡ c) × IsNextInHistory p x i limit s
        × (outcomes (s ∷ []) ≡ outcomes_by (first_requests p x i) (new_flags (design p) x i c)) }
    ensures verified { (p : Plan) → FitsEngine p → (limit : ℕ) (x : Core ModuleState) → IsAgreed (design p) (lockstep_run p) limit x
        → (i : ℕ) → x.timed i < x.emitted i → x.verified i (x.timed i) ≡ true → has_query (core_accesses (design p) x i (x.timed i)) ≡ true
        → (s : HistoryStep) × IsNextInHistory p x i limit s
        × (outcomes (s ∷ []) ≡ outcomes_by (first_requests p x i) (x.flags i (x.timed i))) }
{}

/// The theory's count of a module's pops, or pushes, of a channel before its step `k` is how many elements its earlier steps moved
/// there. The ordinal of an access in step `k` is one more.
pub fn ordinals_are_counts()
    ensures { (p : Plan) (x : Core ModuleState) → AreOwnMarks (design p) x → (i : ℕ) (side : Side) (f k : ℕ) → k ≤ x.emitted i
        → core_tally (design p) x i side f k ≡ length (moved side f (map (core_step p x i) (range_with_len 0 k))) }
{}

/// The report that is read off a final core is the plan's, in whatever order the core was reached.
pub fn every_report()
    ensures reached { (p : Plan) → FitsEngine p → (actions : List Action) (x : Core ModuleState)
        → ActsAll (design p) p.cycles (opening_core (design p)) actions x → IsFinal (design p) p.cycles x
        → (steps : List HistoryStep) → AreInOrder p x steps → report p ≡ core_report p x steps (core_verdict p x) }
    ensures agreed { (p : Plan) → FitsEngine p → (x : Core ModuleState)
        → IsAgreed (design p) (lockstep_run p) p.cycles x → IsFinal (design p) p.cycles x
        → (steps : List HistoryStep) → AreInOrder p x steps → report p ≡ core_report p x steps (core_verdict p x) }
{}

/// The steps with a cycle of a final core, in order of cycles, and within one cycle in order of modules, are the history before the
/// limit. No other list in that order has the same steps. Sorting gives that order, for a core that is not final too. From the
/// verdict's clock up to the cycle limit nothing is done, so the history before the limit is the one that the report tells.
pub fn steps_in_order()
    ensures history { (p : Plan) → FitsEngine p → (limit : ℕ) (x : Core ModuleState) → IsAgreed (design p) (lockstep_run p) limit x
        → IsFinal (design p) limit x → AreInOrder p x (history p limit) }
    ensures only { (p : Plan) → FitsEngine p → (limit : ℕ) (x : Core ModuleState) → IsAgreed (design p) (lockstep_run p) limit x
        → IsFinal (design p) limit x → (steps : List HistoryStep) → AreInOrder p x steps → steps ≡ history p limit }
    ensures sorted { (p : Plan) (limit : ℕ) (x : Core ModuleState) → IsAgreed (design p) (lockstep_run p) limit x
        → (places : List (ℕ × ℕ)) → AreSorted p x places → AreInOrder p x (steps_at p x places) }
    ensures reported { (p : Plan) → history p p.cycles ≡ history p (clock_of (verdict p)) }
{}

/// An edit that the plan takes gives a plan that the engine takes, whose design is the edited design. An edit to the depth that a
/// FIFO has already gives the plan itself. A final core that is cut back to the cycles below the first touched clock agrees with
/// the edited plan. After any permitted actions from there, the report that is read off a final core is the edited plan's.
pub fn edited_plans_agree()
    ensures fits { (p : Plan) → FitsEngine p → (e : Edit) → EditFits p e → FitsEngine (with_depth p e.channel e.depth) }
    ensures same_depth { (p : Plan) (f : ℕ) → with_depth p f (slice_index p.depths f) ≡ p }
    ensures design { (p : Plan) (f depth : ℕ) → f < length p.depths → design (with_depth p f depth) ≡ edited (design p) f depth }
    ensures agrees { (p : Plan) → FitsEngine p → (e : Edit) → EditFits p e → (limit t : ℕ) (x : Core ModuleState)
        → IsAgreed (design p) (lockstep_run p) limit x → IsFinal (design p) limit x → t ≤ limit
        → IsUntouchedByCycles (design p) x e.channel e.depth t
        → let q : Plan = with_depth p e.channel e.depth in IsAgreed (design q) (lockstep_run q) limit (after_edit (design p) x t) }
    ensures reports { (p : Plan) → FitsEngine p → (e : Edit) → EditFits p e → (t : ℕ) (x : Core ModuleState)
        → IsAgreed (design p) (lockstep_run p) p.cycles x → IsFinal (design p) p.cycles x → t ≤ p.cycles
        → IsUntouchedByCycles (design p) x e.channel e.depth t
        → let q : Plan = with_depth p e.channel e.depth in (actions : List Action) (y : Core ModuleState)
        → ActsAll (design q) p.cycles (after_edit (design p) x t) actions y → IsFinal (design q) p.cycles y
        → (steps : List HistoryStep) → AreInOrder q y steps → report q ≡ core_report q y steps (core_verdict q y) }
{}

/// A list of permitted actions from the opening core has at most three actions for each operation that each module may do, and one
/// for each module.
pub fn few_actions()
    ensures { (p : Plan) → FitsEngine p → (limit : ℕ) (actions : List Action) (x : Core ModuleState)
        → ActsAll (design p) limit (opening_core (design p)) actions x → length actions ≤ length p.design.modules * (3 * p.ops + 1) }
{}
