//! The laws of the lockstep machine.
ghost use Rattle.std.specs.Prelude.{ℕ, ◌≡◌, ◌+◌, ◌<◌, ◌≤◌, ◌↔◌, length, IsTrue, IsFalse, All, AllPairs, List as Items};
ghost use Rattle.lockstep_defs.specs.{Block, Plan, Control, ModuleState, Reply, block_of, interval, live_count, due, IsModuleSound};
ghost use Rattle.lockstep_defs.specs.{FitsEngine, Port, effects, committed, opened, move, HistoryStep, steps_of, report, is_settled};
ghost use Rattle.lockstep_defs.specs.{settled_verdict, verdict, own_run, rests, skip, own_later, fits, IsStateOf, IsDueIn, taking_requests};
ghost use Rattle.lockstep_defs.specs.{StandsAtPort, LastWins, module_at, requests_of, state, state_at, history, SettledStays, SomeoneMoves};
ghost use Rattle.lockstep_defs.specs.{NoneBefore, MovesOnce, IsConserved, PopsInOrder, IsCounted, IsBefore, IsOwnRun, IsLive, AreAges};
ghost use Rattle.lockstep_defs.specs.{HasNumbersOf, AsksOnce, QuietClocksEnd};
ghost use Rattle.flow_design.specs.{declared.design.Module.Module, declared.report.Verdict.TheVariants.Cycles};

/// From a settled clock on nothing changes and nothing is done. From a clock that is not settled, some module moves in it or in a
/// later one. The verdict is that of the first settled clock up to the cycle limit, and `cycles` where there is none.
pub fn settled_clocks()
    ensures stays { (p : Plan) (c : ℕ) → SettledStays p c }
    ensures moves { (p : Plan) (c : ℕ) → SomeoneMoves p c }
    ensures first { (p : Plan) (c : ℕ) → c ≤ p.cycles → NoneBefore p c → IsTrue (is_settled p c (state p c))
        → verdict p ≡ settled_verdict p c (state p c) }
    ensures none { (p : Plan) → NoneBefore p (p.cycles + 1) → verdict p ≡ Cycles p.cycles }
{}

/// Each channel of a plan that the engine takes is a queue: values are popped in the order in which they went in, and none is lost.
pub fn channels_are_queues()
    ensures once { (p : Plan) → FitsEngine p → (c : ℕ) → MovesOnce p c }
    ensures conserved { (p : Plan) → FitsEngine p → (c f : ℕ) → f < length p.design.channels → IsConserved p c f }
    ensures in_order { (p : Plan) → FitsEngine p → (c f : ℕ) → f < length p.design.channels → PopsInOrder p c f }
    ensures counted { (p : Plan) → FitsEngine p → (c f : ℕ) → f < length p.design.channels → IsCounted p c f }
{}

/// The history is in order of clocks, and within one clock in order of modules. No other list in that order has the same steps of
/// each module. What a module does in the history is its own run on the history's replies.
pub fn histories_are_own_runs()
    ensures order { (p : Plan) (c : ℕ) → AllPairs IsBefore (history p c) }
    ensures clocks { (p : Plan) (c : ℕ) → All (λ s. s.clock < c) (history p c) }
    ensures modules { (p : Plan) (c : ℕ) → All (λ s. s.«module» < length p.design.modules) (history p c) }
    ensures only { (p : Plan) (c : ℕ) (steps : Items HistoryStep) → AllPairs IsBefore steps
        → ((i : ℕ) → steps_of i steps ≡ steps_of i (history p c)) → steps ≡ history p c }
    ensures own { (p : Plan) (i c : ℕ) → i < length p.design.modules → IsOwnRun p i c }
{}

/// In each clock the state of each module has the shape that its design gives it, and its due operations and requests are
/// operations of that design. In one local clock a module pops a channel at most once, pushes it at most once, and makes no more
/// queries than its block has.
pub fn states_fit_modules()
    ensures opened { (channels : ℕ) (m : Module) → IsModuleSound channels m → IsStateOf m (opened m) }
    ensures moved { (channels : ℕ) (m : Module) → IsModuleSound channels m → (s : ModuleState) (replies : Items Reply)
        → IsStateOf m s → IsFalse s.ended → IsStateOf m (move m s replies) }
    ensures history { (p : Plan) → FitsEngine p → (c i : ℕ) → i < length p.design.modules → IsStateOf (module_at p i) (state_at p c i) }
    ensures due { (m : Module) (s : ModuleState) → All (IsDueIn (block_of m s) (live_count (block_of m s) s.control)) (due m s) }
    ensures requests { (p : Plan) → FitsEngine p → (i : ℕ) → i < length p.design.modules → (s : ModuleState)
        → All (StandsAtPort p i) (requests_of p (i, s)) }
    ensures queries { (p : Plan) → FitsEngine p → (i : ℕ) (s : ModuleState) → AsksOnce p i s }
    ensures takers { (p : Plan) → FitsEngine p → (a : Port) (i : ℕ) (s : ModuleState)
        → length (taking_requests a (requests_of p (i, s))) ≤ 1 }
{}

/// The due operations of a local clock commit together in commit order: the last write to a place wins.
pub fn last_write_wins()
    ensures { (m : Module) (s : ModuleState) (replies : Items Reply) → IsStateOf m s
        → LastWins m (block_of m s) (effects (block_of m s) s (due m s) replies) s (committed m s replies) }
{}

/// A report names only modules and channels of its plan, and has one output for each sink.
pub fn reports_name_their_plans()
    ensures { (p : Plan) → FitsEngine p → HasNumbersOf p (report p) }
{}

/// Where a block's interval is at least 1, its live iterations are those that started at the newest one's start, or a number of
/// intervals before it, from local clock 0 on, and that are younger than the block's length.
pub fn live_iterations()
    ensures live { (b : Block) (k : Control) (j : ℕ) → 0 < interval b → (j < live_count b k) ↔ IsLive b k j }
    ensures ages { (b : Block) (k : Control) → AreAges b k }
{}

/// The quiet clocks of a module end, from each state that it comes to. In these clocks only the state of its own run changes, and
/// the time since its last step.
pub fn quiet_clocks_end()
    ensures opened { (p : Plan) → FitsEngine p → (i : ℕ) → IsTrue (fits p i (opened (module_at p i))) }
    ensures moved { (p : Plan) → FitsEngine p → (i : ℕ) (s : ModuleState) (replies : Items Reply)
        → IsTrue (fits p i s) → IsTrue (fits p i (move (module_at p i) s replies)) }
    ensures end { (p : Plan) → FitsEngine p → (i : ℕ) (s : ModuleState) → IsTrue (fits p i s) → QuietClocksEnd p i s }
    ensures own { (p : Plan) (i : ℕ) (replies : Items (Items Reply)) (n later : ℕ)
        → ((j : ℕ) → j < later → IsFalse (rests p i (skip p i j (own_run p i replies n).state)))
        → own_run p i replies (later + n) ≡ own_later p i later (own_run p i replies n) }
{}
