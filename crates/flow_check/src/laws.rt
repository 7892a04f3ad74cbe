//! The laws of checked sessions.
ghost use Rattle.std.specs.Prelude.{◌≡◌, ◌≤◌, ℕ, List, None, Some, All};
ghost use Rattle.flow_check.specs.{Scale, Statement, Plan, limits_at, EditFits, FitsEngine, KeepsReadingRules, TextFault, plan_of};
ghost use Rattle.flow_check.specs.{edits_of, TellsFirst, fault_of, IsPlanRead, checking_fault, KeepsScale};

/// A session that keeps the rules of reading at a scale has a plan with all that the engine needs, except what the rules of
/// checking test. It keeps the limits of the scale.
pub fn read_sessions_have_plans()
    ensures { (scale : Scale) (statements : List Statement) → KeepsReadingRules scale statements
        → IsPlanRead scale (plan_of scale statements) }
{}

/// A session that keeps the rules of reading at a scale, and has no checking fault, has a plan that the engine takes, and that
/// keeps the scale.
pub fn checked_plans_fit()
    ensures engine { (scale : Scale) (statements : List Statement) → KeepsReadingRules scale statements
        → checking_fault scale (plan_of scale statements) ≡ None → FitsEngine (plan_of scale statements) }
    ensures keeps { (scale : Scale) (statements : List Statement) → KeepsReadingRules scale statements
        → checking_fault scale (plan_of scale statements) ≡ None → KeepsScale scale (plan_of scale statements) }
{}

/// A plan that the engine takes, and that keeps a scale, breaks no rule of checking at that scale. So `check` refuses no session
/// whose plan fits.
pub fn fitting_plans_are_checked()
    ensures plans { (scale : Scale) (plan : Plan) → FitsEngine plan → KeepsScale scale plan → checking_fault scale plan ≡ None }
    ensures sessions { (scale : Scale) (statements : List Statement) (lines : List ℕ) → FitsEngine (plan_of scale statements)
        → KeepsScale scale (plan_of scale statements) → fault_of scale statements lines ≡ None }
{}

/// A refusal tells the line of the first statement that breaks its rule. No rule that comes before that one is broken.
pub fn refusals_tell_the_first()
    ensures { (scale : Scale) (statements : List Statement) (lines : List ℕ) (fault : TextFault)
        → fault_of scale statements lines ≡ Some fault → TellsFirst scale statements lines fault }
{}

/// Each edit of a session that was read at a scale fits the session's plan, and its depth is within the limit of the scale.
pub fn read_edits_fit()
    ensures fit { (scale : Scale) (statements : List Statement) → KeepsReadingRules scale statements
        → All (EditFits (plan_of scale statements)) (edits_of statements) }
    ensures within { (scale : Scale) (statements : List Statement) → KeepsReadingRules scale statements
        → All (λ edit. edit.depth ≤ (limits_at scale).fifo_depth) (edits_of statements) }
{}
