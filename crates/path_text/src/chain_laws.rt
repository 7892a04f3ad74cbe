//! The law of the chain that follows polls.
ghost use Rattle.std.specs.Prelude.{ℕ, AllPairs};
ghost use Rattle.path_text.specs.{Plan, FitsEngine, log_of, EndsEarlier, links_in, polled_path};

/// The chain that follows polls always goes back to an earlier clock: each link ends before the links that come later in time
/// begin. The list of links begins with the latest.
pub fn chains_go_back()
    ensures { (p : Plan) → FitsEngine p → (clock : ℕ) → AllPairs EndsEarlier (links_in (polled_path p (log_of p) clock)) }
{}
