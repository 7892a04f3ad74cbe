//! The laws of edits: what they do to the records of outcomes, and what they cost.
ghost use Rattle.std.specs.Prelude.{◌≡◌, ℕ, ◌+◌, ◌<◌, [], length, take, slice_index_or};
ghost use Rattle.sim_core.specs.{Edit, report, log_at, Query, IsPrefix, IsFinal, MayRun, AllVerified, design, OutcomesGrow, CoreView};
ghost use Rattle.sim_core.specs.{theory_of, IsDiffering, HasSetFew, IsSoundCore, IsEditedOn, HasOtherAnswer, recorded_in, verified_in};

/// The answers of the report are the verified outcomes of a final core. Where no outcome is assumed these are all that it holds.
/// The verified outcomes of any core are the first ones of the report.
///
/// While a core is edited and driven, the outcomes that it holds of a module only grow: either none is added, or all are verified.
/// Where none is added for any module, no Run is permitted, so driving takes no memory. A query whose outcome is found to differ
/// has another answer in the report than the one that was recorded under its number before the edit.
pub fn records_are_answers()
    ensures answers { (v : CoreView) → IsSoundCore v → IsFinal (design v.plan) v.plan.cycles (theory_of v)
        → (report v.plan).answers ≡ verified_in v.held.logs }
    ensures verified { (v : CoreView) → IsSoundCore v → AllVerified (theory_of v) → verified_in v.held.logs ≡ recorded_in v.held.logs }
    ensures begins { (v : CoreView) → IsSoundCore v → (m : ℕ) → m < length v.held.logs
        → IsPrefix (take (log_at v.held.logs m).verified (log_at v.held.logs m).outcomes) (slice_index_or (report v.plan).answers m []) }
    ensures grow { (v : CoreView) (e : Edit) (w : CoreView) → IsEditedOn v e w → (m : ℕ) → m < length v.held.logs
        → OutcomesGrow (log_at v.held.logs m) (log_at w.held.logs m) }
    ensures repeats { (v : CoreView) (e : Edit) (w : CoreView) → IsEditedOn v e w
        → ((m : ℕ) → m < length v.held.logs → (log_at w.held.logs m).outcomes ≡ (log_at v.held.logs m).outcomes)
        → (m : ℕ) → MayRun (design w.plan) (theory_of w) m → ⊥ }
    ensures differ { (v : CoreView) (e : Edit) (w : CoreView) → IsEditedOn v e w → (q : Query) → IsDiffering w q
        → HasOtherAnswer v.held.logs w.plan q }
{}

/// The cycles that an edit and the `drive` after it set, and the steps that keep their cycles below the first touched clock, are
/// together at most all steps afterwards. So no more cycles are set than there are steps of three kinds: those with a cycle at that
/// clock or later, those that had none, and new ones.
pub fn edits_set_few()
    ensures { (v : CoreView) (e : Edit) (w : CoreView) (on : IsEditedOn v e w) (set : ℕ)
        → on.now + on.after ≡ on.before + on.later + set → HasSetFew v e w set }
{}
