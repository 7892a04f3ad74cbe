//! What several edits, one after the other, make of a plan.
ghost use Rattle.std.specs.Prelude.{◌≡◌, ◌<◌, [], ◌∷◌, ◌++◌, length, List};
ghost use Rattle.outcome_guard.specs.{Plan, Edit, with_depth, plan_after};

/// Without edits a plan stays as it is, and each further edit sets one more depth.
pub fn edits_in_order()
    ensures none { (p : Plan) → plan_after p [] ≡ p }
    ensures one_more { (p : Plan) (edits : List Edit) (e : Edit) → e.channel < length p.depths
        → plan_after p (edits ++ e ∷ []) ≡ with_depth (plan_after p edits) e.channel e.depth }
{}
