//! The laws of the answers that a session keeps.
ghost use Rattle.std.specs.Prelude.{◌≡◌, ◌≢◌, ℕ, ◌+◌, ◌<◌, Bool, List, length, slice_get, Some};
ghost use Rattle.depth_session.specs.{next_counts, RecordGoesOn, RepeatsAnswers, answers_of, run_count, Log, log_at, recorded_in};
ghost use Rattle.depth_session.specs.{verified_in, OutcomesGrow};

/// Where each module's record is as it was or grew by what is found, the records are the answers that are kept after the report,
/// and no run is counted. So it is where what is found is, for each module, a prefix of what was recorded. Where one outcome is
/// found that differs from the recorded one, there is one more run, whose answers are kept.
pub fn records_go_on()
    ensures goes_on { (kept found now : List (List Bool)) → length found ≡ length kept → length now ≡ length kept
        → ((m : ℕ) → m < length kept → RecordGoesOn (answers_of kept m) (answers_of found m) (answers_of now m))
        → (runs : ℕ) → next_counts (run_count kept runs) found ≡ run_count now runs }
    ensures repeats { (kept found : List (List Bool)) → length found ≡ length kept → RepeatsAnswers kept found
        → (runs : ℕ) → next_counts (run_count kept runs) found ≡ run_count kept runs }
    ensures differs { (kept found : List (List Bool)) (m j : ℕ) (a b : Bool) → m < length kept → m < length found
        → slice_get (answers_of kept m) j ≡ Some a → slice_get (answers_of found m) j ≡ Some b → a ≢ b
        → (runs : ℕ) → next_counts (run_count kept runs) found ≡ run_count found (runs + 1) }
{}

/// A session need not keep answers of its own where an edit only added to the outcomes in the log, and its report has the verified
/// ones: after the report what is kept is what the log holds, and no run is counted.
pub fn logs_are_kept()
    ensures { (old now : List Log) → length now ≡ length old → ((m : ℕ) → m < length old → OutcomesGrow (log_at old m) (log_at now m))
        → (runs : ℕ) → next_counts (run_count (recorded_in old) runs) (verified_in now) ≡ run_count (recorded_in now) runs }
{}
