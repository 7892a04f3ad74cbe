//! The laws of the advised depths.
ghost use Rattle.std.specs.Prelude.{◌≡◌, ◌≢◌, ℕ, List as Items};
ghost use Rattle.depth_advice.specs.{Plan, FitsEngine, report, verdict, with_depths, AreDepths, AreDeeper, AsksNothing, wide, advised};
ghost use Rattle.depth_advice.specs.{HoldsLess, AreFastest, IsNeverDone};
ghost use Rattle.flow_design.specs.declared.report.Verdict.TheVariants.{Done};

/// The advised depths are within the language's limits, and the engine takes the plan with them. With the advised depths, or with
/// any greater ones, the plan has the report of the plan whose FIFOs are as deep as the language allows, and up to its verdict's
/// clock each FIFO holds fewer elements than its advised depth. So none is ever full.
pub fn advised_depths_never_block()
    ensures depths { (p : Plan) → FitsEngine p → AreDepths p (advised p) }
    ensures fits { (p : Plan) → FitsEngine p → (depths : Items ℕ) → AreDepths p depths → FitsEngine (with_depths p depths) }
    ensures same { (p : Plan) → FitsEngine p → (depths : Items ℕ) → AreDeeper p (advised p) depths
        → report (with_depths p depths) ≡ report (wide p) }
    ensures never_full { (p : Plan) → FitsEngine p → (depths : Items ℕ) → AreDeeper p (advised p) depths
        → HoldsLess (with_depths p depths) (advised p) }
{}

/// Where no operation is a query and some depths lead to an end, the advised depths lead to an end no later. So a plan that does
/// not end with the advised depths does not end with any depths.
pub fn no_depths_are_faster()
    ensures fastest { (p : Plan) → FitsEngine p → AsksNothing p → AreFastest p (advised p) }
    ensures never_done { (p : Plan) → FitsEngine p → AsksNothing p → ((clock : ℕ) → verdict (with_depths p (advised p)) ≢ Done clock)
        → IsNeverDone p }
{}
