//! The law of canonical texts.
ghost use Rattle.std.specs.{Prelude.◌≤◌, Prelude.List, Prelude.ℕ, Prelude.length, List.range_with_len};
ghost use Rattle.flow_print.specs.{Scale, Statement, limits_at, KeepsReadingRules, StandsFor, canonical_text};

/// A canonical text reads back, unless it is too long: it stands for the session whose text it is, with the statements on the lines
/// 1, 2, 3 and so on. This holds of each session that keeps the rules of reading, and so of each session that a text stands for.
pub fn reads_back()
    ensures rules { (scale : Scale) (s : List Statement) → KeepsReadingRules scale s
        → length (canonical_text s) ≤ (limits_at scale).text_bytes
        → StandsFor scale (canonical_text s) s (range_with_len 1 (length s)) }
    ensures read { (scale : Scale) (text : List ℕ) (s : List Statement) (l : List ℕ) → StandsFor scale text s l
        → length (canonical_text s) ≤ (limits_at scale).text_bytes
        → StandsFor scale (canonical_text s) s (range_with_len 1 (length s)) }
{}
