//! The laws of the whole answer, and of reports without their events.
ghost use Rattle.std.specs.Prelude.{◌≡◌, ℕ, Bool, List};
ghost use Rattle.whole_answer.specs.declared.answer.Answer.{Answer};
ghost use Rattle.whole_answer.specs.{Answers, AnswersText, Plan, FitsEngine, HasNumbersOf, report, report_with, report_text_of, ScaledTask};

use flow_grammar::one_answer as one_reading;
use lockstep_defs::reports_name_their_plans;

/// For each list of words and each input there is exactly one answer.
pub fn one_answer()
    ensures some { (words : List (List ℕ)) (bytes : List ℕ) → (a : Answer) × Answers words bytes a }
    ensures no_other { (words : List (List ℕ)) (bytes : List ℕ) (a b : Answer) → Answers words bytes a → Answers words bytes b → a ≡ b }
{
    one_text_answer();
}

/// For each text there is exactly one answer under each task at each scale.
pub(crate) fn one_text_answer()
    ensures some { (asked : ScaledTask) (text : List ℕ) → (a : Answer) × AnswersText asked text a }
    ensures no_other { (asked : ScaledTask) (text : List ℕ) (a b : Answer) → AnswersText asked text a → AnswersText asked text b → a ≡ b }
{
    one_reading();
}

/// Apart from its events, a report without them says the same as one with them.
pub(crate) fn reports_without_events()
    ensures numbers { (events : Bool) (p : Plan) → FitsEngine p → HasNumbersOf p (report_with events p) }
    ensures verdict { (events : Bool) (p : Plan) → (report_with events p).verdict ≡ (report p).verdict }
    ensures answers { (events : Bool) (p : Plan) → (report_with events p).answers ≡ (report p).answers }
    ensures text { (events : Bool) (p : Plan) (k : ℕ) → report_text_of p.design (report_with events p) k events ≡ report_text_of p.design
        (report p) k events }
{
    reports_name_their_plans();
}
