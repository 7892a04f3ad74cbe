//! The laws of the theory, for any design `d` over states of any type `S`, and any history `h` of it.
ghost use Rattle.std.specs.Prelude.{◌≡◌, ◌↔◌, ℕ, suc, ◌+◌, ◌-◌, ◌*◌, ◌<◌, ◌≤◌, min, ◌++◌, ◌⊎◌, true, false, Some, List, length};
ghost use Rattle.event_timing.specs.{Side, Design, IsDesign, Access, Reply, Each, Trace, IsHistory, can_move, is_possible, steps, done};
ghost use Rattle.event_timing.specs.{own, tally, place, candidate, known_of, answer, Grows, GrowsBeside, IsSettled, RepliesAlike, work};
ghost use Rattle.event_timing.specs.{opening_core, view, core_accesses, core_reply, core_pushed, has_query, Action, Acts, ActsAll, MayRun};
ghost use Rattle.event_timing.specs.{MayAssign, MayAnswer, MayEarliest, IsOpen, IsQuiet, IsFinal, IsSame, IsNoRunOf, ActsRecorded, newest};
ghost use Rattle.event_timing.specs.{new_flags, assigns, runs, after_run, after_assign, after_answer, IsAgreed, AreOwnMarks, AllVerified};
ghost use Rattle.event_timing.specs.{HappensBefore, IsAtRest, IsStepAt, IsUndetermined, IsBounded, possible_all, stop, IsInside, may_run};
ghost use Rattle.event_timing.specs.{may_assign, may_answer, is_open, is_quiet, may_earliest, is_final, edited, after_edit, kept};
ghost use Rattle.event_timing.specs.{held_by_cycles, IsUntouchedByCycles, Core.Core};
ghost use Rattle.flow_word.specs.declared.access.Side.TheVariants.{Push};

/// The opening core agrees with the history, and so does each core that permitted actions make of one that agrees, in any order.
pub fn every_order_agrees<S>()
    ensures opening { (d : Design S) (h : Trace S) → IsDesign d → IsHistory d h → (limit : ℕ) → IsAgreed d h limit (opening_core d) }
    ensures kept { (d : Design S) (h : Trace S) → IsDesign d → IsHistory d h → (limit : ℕ) (x : Core S) → IsAgreed d h limit x
        → (actions : List Action) (y : Core S) → ActsAll d limit x actions y → IsAgreed d h limit y }
{}

/// The marks of a core are those of the modules' own runs. Each permitted action keeps that.
pub fn marks_stay<S>()
    ensures run { (d : Design S) (x : Core S) → AreOwnMarks d x → (m : ℕ) → MayRun d x m → AreOwnMarks d (after_run d x m) }
    ensures assign { (d : Design S) (x : Core S) → AreOwnMarks d x → (m c : ℕ) → AreOwnMarks d (after_assign x m c) }
    ensures answer { (d : Design S) → IsDesign d → (x : Core S) → AreOwnMarks d x → (m c : ℕ) → x.timed m < x.emitted m → IsSame d x m c
        → AreOwnMarks d (after_answer d x m c) }
    ensures edit { (d : Design S) (x : Core S) → AreOwnMarks d x → (fifo depth t : ℕ)
        → AreOwnMarks (edited d fifo depth) (after_edit d x t) }
    ensures actions { (d : Design S) → IsDesign d → (limit : ℕ) (x : Core S) → AreOwnMarks d x → (actions : List Action) (y : Core S)
        → ActsAll d limit x actions y → AreOwnMarks d y }
    ensures newest { (d : Design S) (x : Core S) → AreOwnMarks d x → (m : ℕ) → newest d x m ≡ own d m (core_reply d x m) (x.emitted m) }
{}

/// A core only grows: the marks of a module and the replies to it stay, whatever is done. Actions without a Run of a module leave
/// its marks as they were. Where the replies of a module's first steps are all there, growth changes none of these replies.
pub fn cores_grow<S>()
    ensures run { (d : Design S) (x : Core S) (m : ℕ) → Grows d x (after_run d x m) }
    ensures assign { (d : Design S) (x : Core S) (m c : ℕ) → Grows d x (after_assign x m c) }
    ensures answer { (d : Design S) → IsDesign d → (x : Core S) → AreOwnMarks d x → (m c : ℕ) → x.timed m < x.emitted m → IsSame d x m c
        → Grows d x (after_answer d x m c) }
    ensures all { (d : Design S) (h : Trace S) → IsDesign d → IsHistory d h → (limit : ℕ) (x : Core S) → IsAgreed d h limit x
        → (actions : List Action) (y : Core S) → ActsAll d limit x actions y → Grows d x y }
    ensures others { (d : Design S) (h : Trace S) → IsDesign d → IsHistory d h → (limit : ℕ) (x : Core S) → IsAgreed d h limit x
        → (m : ℕ) (actions : List Action) → IsNoRunOf m actions → (y : Core S) → ActsAll d limit x actions y → GrowsBeside d x y m }
    ensures settled { (d : Design S) (x : Core S) → AreOwnMarks d x → (m n : ℕ) → n < x.emitted m → IsSettled d x m n }
    ensures settled_all { (d : Design S) (x : Core S) → AreOwnMarks d x → (m : ℕ) → MayRun d x m → IsSettled d x m (x.emitted m) }
    ensures replies { (d : Design S) (x y : Core S) → Grows d x y → (m n : ℕ) → IsSettled d x m n → RepliesAlike d x y m n }
{}

/// What a core finds by counts alone is right by the history: the clock of a determined step, and the outcomes that an Answer or an
/// Earliest finds. So a query is found to differ only where the history's outcome is not the assumed one. The enabler of an access
/// is the one step at which the count of pops, or of pushes, goes beyond the access's ordinal.
pub fn found_by_counts<S>()
    ensures cycle { (d : Design S) (h : Trace S) → IsDesign d → IsHistory d h → (limit : ℕ) (x : Core S) → IsAgreed d h limit x
        → (m c : ℕ) → candidate d (view d x) m ≡ Some c → IsStepAt d h m (x.timed m) c }
    ensures enabler { (accesses : ℕ → List Access) (replies : ℕ → List Reply) (side : Side) (ch n i k : ℕ) → k < n
        → tally accesses replies side ch k ≤ i → i < tally accesses replies side ch (suc k) → place accesses replies side ch n i ≡ Some k }
    ensures answered { (d : Design S) (h : Trace S) → IsDesign d → IsHistory d h → (limit : ℕ) (x : Core S) → IsAgreed d h limit x
        → (m c : ℕ) → MayAnswer d limit x m c → new_flags d x m c ≡ possible_all d h c (core_accesses d x m (x.timed m)) }
    ensures earliest { (d : Design S) (h : Trace S) → IsDesign d → IsHistory d h → (limit : ℕ) (x : Core S) → IsAgreed d h limit x
        → (m c : ℕ) → MayEarliest d limit x m c → new_flags d x m c ≡ possible_all d h c (core_accesses d x m (x.timed m)) }
{}

/// Where each recorded outcome is verified, no later action finds another outcome. This holds from the opening core on: only an
/// edit makes outcomes assumed. A verified outcome is that of a step which the history does before the limit.
pub fn verified_outcomes<S>()
    ensures opening { (d : Design S) → AllVerified (opening_core d) }
    ensures kept { (d : Design S) (h : Trace S) → IsDesign d → IsHistory d h → (limit : ℕ) (x : Core S) → IsAgreed d h limit x
        → AllVerified x → (actions : List Action) (y : Core S) → ActsAll d limit x actions y → AllVerified y }
    ensures never_differs { (d : Design S) (x : Core S) → AllVerified x → (m c : ℕ) → x.verified m (x.timed m) ≡ false
        → candidate d (view d x) m ≡ Some c → IsSame d x m c }
    ensures happens { (d : Design S) (h : Trace S) (limit : ℕ) (x : Core S) → IsAgreed d h limit x → (m k : ℕ) → k < x.emitted m
        → x.verified m k ≡ true → has_query (core_accesses d x m k) ≡ true → HappensBefore d h limit m k }
    ensures found { (d : Design S) (h : Trace S) (limit : ℕ) (x : Core S) → IsAgreed d h limit x → (m c : ℕ) → x.timed m < x.emitted m
        → x.verified m (x.timed m) ≡ true → IsStepAt d h m (x.timed m) c
        → x.flags m (x.timed m) ≡ possible_all d h c (core_accesses d x m (x.timed m)) }
{}

/// A final core has each step of the history below the limit. Where none of its steps is determined, no module moves from the last
/// stop on, and the module with that stop moves in the clock before it. A determined step of a final core moves at the limit or
/// later.
pub fn final_cores<S>()
    ensures complete { (d : Design S) (h : Trace S) → IsDesign d → IsHistory d h → (limit : ℕ) (x : Core S) → IsAgreed d h limit x
        → IsFinal d limit x → (m c : ℕ) → c ≤ limit → done d h m c ≤ x.timed m }
    ensures rests { (d : Design S) (h : Trace S) → IsDesign d → IsHistory d h → (limit : ℕ) (x : Core S) → IsAgreed d h limit x
        → IsFinal d limit x → IsUndetermined d x → (last : ℕ) → ((m : ℕ) → stop d x m ≤ last) → IsAtRest d h last }
    ensures moved { (d : Design S) (h : Trace S) → IsDesign d → IsHistory d h → (limit : ℕ) (x : Core S) → IsAgreed d h limit x
        → IsFinal d limit x → IsUndetermined d x → (m c : ℕ) → suc c ≡ stop d x m → can_move d h c m ≡ true }
    ensures late { (d : Design S) (h : Trace S) → IsDesign d → IsHistory d h → (limit : ℕ) (x : Core S) → IsAgreed d h limit x
        → IsFinal d limit x → (m c : ℕ) → candidate d (view d x) m ≡ Some c → (limit ≤ c) × (can_move d h c m ≡ true) }
{}

/// The rest of a report is read off a core as well. Its events are the steps with a cycle, each before its module's stop. What went
/// into a channel before a clock is known, where the pushing module has a cycle for each of its steps before that clock. A final
/// core tells how many steps each module did below the limit, and, where no step is determined, which accesses hold a module.
pub fn final_reports<S>()
    ensures counts { (d : Design S) (h : Trace S) → IsDesign d → IsHistory d h → (limit : ℕ) (x : Core S) → IsAgreed d h limit x
        → IsFinal d limit x → (m : ℕ) → done d h m limit ≡ x.timed m }
    ensures events { (d : Design S) (h : Trace S) → IsDesign d → IsHistory d h → (limit : ℕ) (x : Core S) → IsAgreed d h limit x
        → (m c last : ℕ) → c < last → done d h m last ≤ x.timed m → steps d h c m ≡ true → (k : ℕ) × (k < x.timed m) × (x.cycle m k ≡ c) }
    ensures before_stop { (d : Design S) (h : Trace S) → IsDesign d → IsHistory d h → (limit : ℕ) (x : Core S) → IsAgreed d h limit x
        → (m k : ℕ) → k < x.timed m → x.cycle m k < stop d x m }
    ensures outputs { (d : Design S) (h : Trace S) → IsDesign d → IsHistory d h → (limit : ℕ) (x : Core S) → IsAgreed d h limit x
        → (ch c : ℕ) → done d h (d.owner Push ch) c ≡ x.timed (d.owner Push ch)
        → h.pushed c ch ≡ d.inputs ch ++ core_pushed d x (d.owner Push ch) ch (x.timed (d.owner Push ch)) }
    ensures held { (d : Design S) (h : Trace S) → IsDesign d → IsHistory d h → (limit : ℕ) (x : Core S) → IsAgreed d h limit x
        → IsFinal d limit x → IsUndetermined d x → (m c : ℕ) → x.timed m < x.emitted m → stop d x m ≤ c
        → (h.state c m ≡ x.state m (x.timed m))
        × Each (λ a. is_possible d h c a.side a.channel ≡ answer (known_of d (view d x) m a) c) (core_accesses d x m (x.timed m)) }
{}

/// The first touched clock is the first in which, by a final core's cycles, the FIFO holds as many elements as the lesser of both
/// depths. Before it the FIFO holds fewer, and before the limit where there is no such clock. A core that is cut back to the cycles
/// below the limit stays as it is.
pub fn first_touched<S>()
    ensures below { (d : Design S) (h : Trace S) → IsDesign d → IsHistory d h → (limit : ℕ) (x : Core S) → IsAgreed d h limit x
        → IsFinal d limit x → (fifo depth t : ℕ) → t ≤ limit → 0 < d.start Push fifo → 0 < depth
        → ((c : ℕ) → c < t → held_by_cycles d x fifo c ≡ min (d.start Push fifo) depth → ⊥) → IsUntouchedByCycles d x fifo depth t }
    ensures none { (d : Design S) (h : Trace S) (limit : ℕ) (x : Core S) → IsAgreed d h limit x → (m : ℕ)
        → kept (x.cycle m) limit (x.timed m) ≡ x.timed m }
{}

/// A final core that is cut back to the cycles below the first touched clock agrees with the edited design, whose history is `g`.
/// An edited design keeps the rules of a design. An edit to the depth that a FIFO has already changes nothing.
pub fn edited_cores<S>()
    ensures same_depth { (d : Design S) (fifo : ℕ) → edited d fifo (d.start Push fifo) ≡ d }
    ensures design { (d : Design S) → IsDesign d → (fifo depth : ℕ) → IsDesign (edited d fifo depth) }
    ensures cut { (d : Design S) (h : Trace S) → IsDesign d → IsHistory d h → ((ch : ℕ) → d.lag Push ch ≡ 1) → (limit : ℕ) (x : Core S)
        → IsAgreed d h limit x → IsFinal d limit x → (fifo depth t : ℕ) → t ≤ limit → IsUntouchedByCycles d x fifo depth t
        → (g : Trace S) → IsHistory (edited d fifo depth) g → IsAgreed (edited d fifo depth) g limit (after_edit d x t) }
{}

/// Each Assign of a module gives one of its steps a cycle, and nothing else does. After an edit a module has at most as many
/// Assigns as it has steps of three kinds: those without a cycle before the edit, those with a cycle at `t` or later, and those
/// that are emitted after it.
pub fn cycles_given<S>()
    ensures given { (d : Design S) (limit : ℕ) (x : Core S) (actions : List Action) (y : Core S) → ActsAll d limit x actions y
        → (m : ℕ) → assigns m actions + x.timed m ≡ y.timed m }
    ensures edited { (d : Design S) (h : Trace S) → IsDesign d → IsHistory d h → ((ch : ℕ) → d.lag Push ch ≡ 1)
        → (limit : ℕ) (x : Core S) → IsAgreed d h limit x
        → IsFinal d limit x → (fifo depth t : ℕ) → t ≤ limit → IsUntouchedByCycles d x fifo depth t → (g : Trace S)
        → IsHistory (edited d fifo depth) g
        → (actions : List Action) (y : Core S) → ActsAll (edited d fifo depth) limit (after_edit d x t) actions y → (m : ℕ)
        → assigns m actions ≤ (x.emitted m - x.timed m) + (x.timed m - kept (x.cycle m) t (x.timed m)) + (y.emitted m - x.emitted m) }
{}

/// Where no own run has more than `most` steps, a list of permitted actions from the opening core has at most `3 * most + 1`
/// actions for each module. From any core that agrees, each permitted action raises the measure of what the core has done, or
/// changes nothing. That measure has the same bound.
pub fn action_bound<S>()
    ensures opening { (d : Design S) (h : Trace S) → IsDesign d → IsHistory d h → (limit most : ℕ) → IsBounded d most
        → (actions : List Action) (x : Core S) → ActsAll d limit (opening_core d) actions x → length actions ≤ d.modules * (3 * most + 1) }
    ensures rises { (d : Design S) (h : Trace S) (limit : ℕ) (x : Core S) → IsAgreed d h limit x
        → (a : Action) (y : Core S) → Acts d limit x a y → (y ≡ x) ⊎ (work d x < work d y) }
    ensures most { (d : Design S) (h : Trace S) (limit : ℕ) (x : Core S) → IsAgreed d h limit x → (most : ℕ) → IsBounded d most
        → work d x ≤ d.modules * (3 * most + 1) }
{}

/// A Run of a module that is permitted stays permitted while others act, and emits the same mark. So do several Runs of it in a
/// row.
pub fn running_ahead<S>()
    ensures several { (d : Design S) (h : Trace S) → IsDesign d → IsHistory d h → (limit : ℕ) (x : Core S) → IsAgreed d h limit x
        → (m n : ℕ) (y : Core S) → ActsAll d limit x (runs n m) y → (actions : List Action) → IsNoRunOf m actions → (z : Core S)
        → ActsAll d limit x actions z → (w : Core S) × ActsAll d limit z (runs n m) w × GrowsBeside d y w m }
    ensures one { (d : Design S) (h : Trace S) → IsDesign d → IsHistory d h → (limit : ℕ) (x : Core S) → IsAgreed d h limit x → (m : ℕ)
        → MayRun d x m → (actions : List Action) → IsNoRunOf m actions → (y : Core S) → ActsAll d limit x actions y
        → MayRun d y m × (newest d y m ≡ newest d x m) }
{}

/// An edit permits no further Run. Neither do actions that answer only queries with recorded outcomes, where they find these
/// outcomes again.
pub fn recorded_outcomes<S>()
    ensures edited { (d : Design S) (x : Core S) (fifo depth t m : ℕ) → MayRun (edited d fifo depth) (after_edit d x t) m → MayRun d x m }
    ensures kept { (d : Design S) (h : Trace S) → IsDesign d → IsHistory d h → (limit : ℕ) (x : Core S) → IsAgreed d h limit x
        → ((m : ℕ) → MayRun d x m → ⊥) → (actions : List Action) (y : Core S) → ActsRecorded d limit x actions y → (m : ℕ)
        → MayRun d y m → ⊥ }
{}

/// The computed tests decide: each is true exactly where its action is permitted. A test that goes over all modules needs a core
/// that has emitted steps of the design's modules alone.
pub fn tests_decide<S>()
    ensures run { (d : Design S) (x : Core S) (m : ℕ) → (may_run d x m ≡ true) ↔ MayRun d x m }
    ensures assign { (d : Design S) (limit : ℕ) (x : Core S) (m : ℕ)
        → (may_assign d limit x m ≡ true) ↔ ((c : ℕ) × MayAssign d limit x m c) }
    ensures answer { (d : Design S) (limit : ℕ) (x : Core S) (m : ℕ)
        → (may_answer d limit x m ≡ true) ↔ ((c : ℕ) × MayAnswer d limit x m c) }
    ensures open_step { (d : Design S) (limit : ℕ) (x : Core S) (m : ℕ) → (is_open d limit x m ≡ true) ↔ ((c : ℕ) × IsOpen d limit x m c) }
    ensures quiet { (d : Design S) (limit : ℕ) (x : Core S) → IsInside d x → (is_quiet d limit x ≡ true) ↔ IsQuiet d limit x }
    ensures earliest { (d : Design S) (limit : ℕ) (x : Core S) → IsInside d x → (m : ℕ)
        → (may_earliest d limit x m ≡ true) ↔ ((c : ℕ) × MayEarliest d limit x m c) }
    ensures last { (d : Design S) (limit : ℕ) (x : Core S) → IsInside d x → (is_final d limit x ≡ true) ↔ IsFinal d limit x }
{}
