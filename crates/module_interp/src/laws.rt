//! The laws of a module's own run from rest to rest, for any plan `p` that the engine takes.
ghost use Rattle.std.specs.Prelude.{ℕ, suc, ◌≡◌, ◌<◌, ◌≤◌, ◌^◌, List as Items, not, length, count_by};
ghost use Rattle.module_interp.specs.{is_blocking, FitsEngine, Plan, Reply, block_of, is_query, module_at, Own, own_run, marks, ModuleRun};
ghost use Rattle.module_interp.specs.{clocks_to_rest, accesses_at, next_rest, rest_at, rest_clock, marks_before, GoesTo, StandsAt};

/// The k-th rest, from 0, is where the own run is after k steps on these replies. Where there are replies to each rest but the
/// last, the own run has the marks of the rests, after any number of local clocks that goes beyond the last rest.
pub fn rests_are_own_runs()
    ensures own { (p : Plan) → FitsEngine p → (i : ℕ) (replies : Items (Items Reply)) (k : ℕ) → GoesTo p i replies k
        → own_run p i replies (rest_clock p i replies k) ≡ rest_at p i replies k }
    ensures steps { (p : Plan) → FitsEngine p → (i : ℕ) (replies : Items (Items Reply)) (k : ℕ) → GoesTo p i replies k
        → length (rest_at p i replies k).steps ≡ k }
    ensures marks { (p : Plan) → FitsEngine p → (i : ℕ) (replies : Items (Items Reply)) → GoesTo p i replies (length replies)
        → (n : ℕ) → rest_clock p i replies (length replies) < n → marks p i replies n ≡ marks_before p i replies (suc (length replies)) }
{}

/// A rest is less than 10^18 local clocks after the step before it, or after local clock 0, and at least 1 after a step. All gaps
/// up to a rest together are less than 10^18 local clocks.
pub fn gaps_are_short()
    ensures most { (p : Plan) (i : ℕ) (o : Own) (run : ModuleRun) → StandsAt p i o run → o.since < 10 ^ 18 }
    ensures all { (p : Plan) (i : ℕ) (o : Own) (run : ModuleRun) → StandsAt p i o run → clocks_to_rest o < 10 ^ 18 }
    ensures after { (p : Plan) (i : ℕ) (o : Own) (run : ModuleRun) → StandsAt p i o run → 0 < length o.steps → 1 ≤ o.since }
    ensures least { (p : Plan) (i : ℕ) (o : Own) (replies : Items Reply) → 1 ≤ (next_rest p i o replies).since }
{}

/// A step makes at most as many queries as its block has query operations.
pub fn queries_are_few()
    ensures { (p : Plan) → FitsEngine p → (i : ℕ) (o : Own)
        → count_by (λ access. not (is_blocking access.kind)) (accesses_at p i o)
        ≤ count_by (λ timed. is_query timed.op) (block_of (module_at p i) o.state).ops }
{}
