//! The laws of plans.
ghost use Rattle.std.specs.Prelude.{◌≡◌, ◌∷◌, ℕ, List};
ghost use Rattle.session_plan.specs.{Scale, Statement, plan_of, edits_of};
ghost use Rattle.flow_design.specs.declared.session.Statement.TheVariants.{Flow};

/// Two sessions that differ only in the language's version have the same plan at each scale, and the same edits.
pub fn versions_agree()
    ensures plans { (scale : Scale) → (one other : ℕ) → (rest : List Statement)
        → plan_of scale (Flow one ∷ rest) ≡ plan_of scale (Flow other ∷ rest) }
    ensures edits { (one other : ℕ) → (rest : List Statement) → edits_of (Flow one ∷ rest) ≡ edits_of (Flow other ∷ rest) }
{}
