//! The laws of generated sessions.
ghost use Rattle.std.specs.{Prelude.◌≡◌, Prelude.◌≤◌, Prelude.ℕ, Prelude.List, Prelude.None, Prelude.length, List.range_with_len};
ghost use Rattle.flow_gen.specs.{FitsEngine, session, session_text, StandsFor, fault_of, plan_of};
ghost use Rattle.flow_design.specs.{declared.limits.TheConstants.STANDARD, declared.limits.Scale.TheVariants.Standard};

use flow_check::checked_plans_fit;

/// For each seed and each number of modules from 1 to 64, the text stands for the session whose canonical text it is, with the
/// statements on the lines 1, 2, 3 and so on. It keeps the limits of the standard scale.
pub fn generated_texts_are_read()
    ensures { (seed modules : ℕ) → 1 ≤ modules → modules ≤ STANDARD.modules
        → StandsFor Standard (session_text seed modules) (session seed modules) (range_with_len 1 (length (session seed modules))) }
{}

/// For each seed and each number of modules from 1 to 64, the session has no checking fault, whatever its lines are, and the engine
/// takes its plan.
pub fn generated_sessions_are_checked()
    ensures faultless { (seed modules : ℕ) (lines : List ℕ) → 1 ≤ modules → modules ≤ STANDARD.modules
        → fault_of Standard (session seed modules) lines ≡ None }
    ensures engine { (seed modules : ℕ) → 1 ≤ modules → modules ≤ STANDARD.modules
        → FitsEngine (plan_of Standard (session seed modules)) }
{
    checked_plans_fit();
}
