//! The laws of the grammar.
ghost use Rattle.std.specs.Prelude.{◌≡◌, ◌<◌, Some, List, ℕ, Result, length, AllPairs};
ghost use Rattle.flow_grammar.specs.{Scale, Statement, Token, TextFault, KeepsReadingRules, Said, StandsFor, statement_of, Writes};
ghost use Rattle.flow_grammar.specs.{DifferInVersion, SameButVersion};

/// What tokens write is what is computed from them. So under one version of the language they write at most one statement.
pub fn written_is_read()
    ensures { (version : ℕ) (tokens : List Token) (s : Statement) → Writes version tokens s → statement_of version tokens ≡ Some s }
{}

/// What is computed from tokens is what they write.
pub fn read_is_written()
    ensures { (version : ℕ) (tokens : List Token) (s : Statement) → statement_of version tokens ≡ Some s → Writes version tokens s }
{}

/// At each scale a text stands for exactly one session, with the numbers of its lines, or has exactly one fault.
pub fn one_answer()
    ensures some { (scale : Scale) (text : List ℕ) → (answer : Result (List Statement × List ℕ) TextFault) × Said scale text answer }
    ensures no_other { (scale : Scale) (text : List ℕ) (a b : Result (List Statement × List ℕ) TextFault) → Said scale text a
        → Said scale text b → a ≡ b }
{}

/// A session that a text stands for keeps the rules of reading. It has one line number for each statement, and these rise.
pub fn keeps_rules()
    ensures rules { (scale : Scale) (text : List ℕ) (s : List Statement) (l : List ℕ) → StandsFor scale text s l
        → KeepsReadingRules scale s }
    ensures numbered { (scale : Scale) (text : List ℕ) (s : List Statement) (l : List ℕ) → StandsFor scale text s l → length l ≡ length s }
    ensures rising { (scale : Scale) (text : List ℕ) (s : List Statement) (l : List ℕ) → StandsFor scale text s l
        → AllPairs (λ a b. a < b) l }
{}

/// If two texts differ only in that one says `flow 1` and the other `flow 2`, and each stands for a session at a scale, then they
/// stand for the same statements after the first, on the same lines. Neither writes a delay, since version 1 has none.
pub fn versions_agree()
    ensures { (scale : Scale) (first second : List ℕ) (s t : List Statement) (l m : List ℕ) → DifferInVersion first second
        → StandsFor scale first s l → StandsFor scale second t m
        → SameButVersion s t × (l ≡ m) }
{}
