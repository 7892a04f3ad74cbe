//! The laws of right records, for any design `d` over states of any type `S`, and any history `h` of it.
ghost use Rattle.std.specs.Prelude.{Bool, ◌⊎◌, ◌≡◌, ℕ, ◌-◌, ◌<◌, ◌≤◌, Some};
ghost use Rattle.event_timing.specs.{Access, Core.Core};
ghost use Rattle.cycle_changes.specs.{Design, IsDesign, Trace, IsHistory, view, IsFinal, IsAgreed, edited, candidate, IsRightRecord};
ghost use Rattle.cycle_changes.specs.{IsRight, with_cycles, IsUnmoved, IsBeside, IsChecked, HasSlack, IsTaking, enabling_step, partner};
ghost use Rattle.cycle_changes.specs.{count_before, IsBetween, AreRightAround, other_side};

/// A record is right where each of its steps is right, and no module's next step is determined below the limit. A right record
/// agrees with the history and is final, and a final core that agrees is a right record. So equations between neighbours determine
/// the cycles and outcomes of all steps, in whatever order they were found.
pub fn right_records<S>()
    ensures agrees { (d : Design S) (h : Trace S) → IsDesign d → IsHistory d h → (limit : ℕ) (x : Core S) → IsRightRecord d limit x
        → IsAgreed d h limit x }
    ensures is_final { (d : Design S) (limit : ℕ) (x : Core S) → IsRightRecord d limit x → IsFinal d limit x }
    ensures converse { (d : Design S) (h : Trace S) → IsDesign d → IsHistory d h → (limit : ℕ) (x : Core S) → IsAgreed d h limit x
        → IsFinal d limit x → IsRightRecord d limit x }
{}

/// A step stays right where its own cycle, that of the step before it, and those of its enablers stay. So it is enough to look at
/// each step that changed, at the step after it in its module, and at the steps that it enables. A step stays right after an edit
/// of a depth where it has no access at the FIFO's pushing side, or the depth is not felt in it.
///
/// The step that enables an access is the one that takes the element, or place, with that ordinal at the channel's other side. An
/// access comes after the step that takes just before it at its own side, and not after the one that takes next: so the steps that
/// a changed step enables are found between two others. Where steps are right, the cycles of a module rise.
pub fn local_changes<S>()
    ensures still { (d : Design S) (x : Core S) (cycles : ℕ → ℕ → ℕ) (m k : ℕ) → IsUnmoved d x cycles m k → IsRight d x m k
        → IsRight d (with_cycles x cycles) m k }
    ensures beside { (d : Design S) (x : Core S) (fifo depth m k : ℕ) → IsBeside d x fifo m k → IsRight d x m k
        → IsRight (edited d fifo depth) x m k }
    ensures slack { (d : Design S) (x : Core S) (fifo depth m k : ℕ) → HasSlack d x fifo depth m k → IsRight d x m k
        → IsRight (edited d fifo depth) x m k }
    ensures enabled { (d : Design S) (x : Core S) (m k : ℕ) (a : Access) (e : ℕ) → enabling_step d x m k a ≡ Some e
        → IsTaking d x (partner d a) (other_side a.side) a.channel (count_before d x m k a - d.start a.side a.channel) e }
    ensures between { (d : Design S) (x : Core S) (m k : ℕ) (a : Access)
        → IsBetween d x m a.side a.channel (count_before d x m k a) k }
    ensures around { (d : Design S) (x : Core S) (cycles : ℕ → ℕ → ℕ) (changed : ℕ → ℕ → Bool)
        → AreRightAround d x cycles changed → (m k : ℕ) → k < x.timed m
        → IsUnmoved d x cycles m k ⊎ IsRight d (with_cycles x cycles) m k }
    ensures rise { (d : Design S) (x : Core S) → ((m k : ℕ) → k < x.timed m → IsRight d x m k) → (m j k : ℕ) → j < k → k < x.timed m
        → x.cycle m j < x.cycle m k }
{}

/// A right record with new cycles after an edit is a right record again, if three things are found. Each step keeps its cycle and
/// those it depends on, and the new depth is not felt in it; or it is right with the new cycles. All new cycles are below the
/// limit. No further step is determined below it. No history is needed for that.
pub fn records_go_on<S>()
    ensures { (d : Design S) (limit : ℕ) (x : Core S) → IsRightRecord d limit x → (fifo depth : ℕ) (cycles : ℕ → ℕ → ℕ)
        → ((m k : ℕ) → k < x.timed m → IsChecked d x cycles fifo depth 0 m k)
        → ((m k : ℕ) → k < x.timed m → cycles m k < limit)
        → ((m c : ℕ) → candidate (edited d fifo depth) (view (edited d fifo depth) (with_cycles x cycles)) m ≡ Some c → limit ≤ c)
        → IsRightRecord (edited d fifo depth) limit (with_cycles x cycles) }
{}
