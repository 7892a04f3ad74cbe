//! How far each module came, and the verdict.
ghost use Rattle.std.specs.Prelude.{◌≡◌, ℕ, ◌<◌, ◌≤◌, [], length, map, is_some};
ghost use Rattle.engine_report.specs.{cycle_bound, gap_bound, HasAccesses, HasPlaces, determined, owners, end_at, gap_of_end};
ghost use Rattle.engine_report.specs.{standing_after, standing_at, together, joined, verdict_for, verdict_by};

use engine_view::Engine;
use event_graph::Place;
use flow_design::{Advance, Verdict};
use time_engine::{Candidate, candidate, last_cycle};

/// How far a module, or several modules together, came in a simulation.
#[derive(Clone, Copy, Debug, PartialEq, Eq)]
pub struct Standing {
    /// The clock in which the module comes to its first step without a cycle, if nothing blocks it, or to its end.
    pub stop: u64,
    /// Whether each step of the module has a cycle, and the module is ended.
    pub ended: bool,
    /// Whether each step of the module has a cycle, and the module is spent.
    pub spent: bool,
    /// Whether the module has a step without a cycle, and the cycle of the first one is determined.
    pub determined: bool,
}

impl Standing {
    /// The standing of no modules.
    fn of_none() -> Standing
        ensures { result ≡ together [] }
    {
        Standing {
            stop: 0,
            ended: true,
            spent: false,
            determined: false,
        }
    }

    /// The standing of some modules together with one more.
    fn with(self, one: Standing) -> Standing
        ensures { result ≡ joined self one }
    {
        Standing {
            stop: self.stop.max(one.stop),
            ended: self.ended && one.ended,
            spent: self.spent || one.spent,
            determined: self.determined || one.determined,
        }
    }
}

/// The verdict: the cycle limit where a step is determined or a module's stop is above the limit. Else the clock is the last stop,
/// and the kind depends on how the modules ended. It takes no memory.
#[tactic(auto, using(crate::proofs::Together::together_more))]
pub fn verdict(engine: &Engine, limit: u64) -> Verdict
    requires ends { length engine.now.ends.items ≡ length engine.now.graph.lanes }
    requires gaps { (i : ℕ) → gap_of_end (end_at engine.now.ends.items i) < gap_bound }
    requires accesses { HasAccesses engine.now.graph.lanes engine.now.fifos.channels }
    requires places { HasPlaces engine.now.graph.lanes engine.now.fifos.channels }
    requires limit { limit ≤ cycle_bound }
    ensures { result ≡ verdict_by limit
        (map (standing_at engine.now.graph.lanes engine.now.fifos.channels engine.now.ends.items) (owners engine.now.graph.lanes)) }
{
    let mut all = Standing::of_none();
    for owner in 0..engine.graph.modules() {
        all = all.with(stand(engine, owner, limit));
    }
    verdict_for(limit, all)
}

/// The standing of a module.
fn stand(engine: &Engine, owner: u32, limit: u64) -> Standing
    requires owner { owner < length engine.now.graph.lanes }
    requires ends { length engine.now.ends.items ≡ length engine.now.graph.lanes }
    requires gaps { (i : ℕ) → gap_of_end (end_at engine.now.ends.items i) < gap_bound }
    requires accesses { HasAccesses engine.now.graph.lanes engine.now.fifos.channels }
    requires places { HasPlaces engine.now.graph.lanes engine.now.fifos.channels }
    requires limit { limit ≤ cycle_bound }
    ensures { result ≡ standing_at engine.now.graph.lanes engine.now.fifos.channels engine.now.ends.items owner }
{
    let last = last_cycle(&engine.graph, owner);
    let first = engine.graph.frontier(owner);
    if first == engine.graph.len(owner) {
        return stand_at_end(last, &engine.ends[owner as usize]);
    }
    let step = engine.graph.look(Place {
        module: owner,
        step: first,
    });
    Standing {
        stop: last + step.gap,
        ended: false,
        spent: false,
        determined: is_determined(engine, owner, limit),
    }
}

/// The standing of a module whose steps all have a cycle. The last of these cycles is given.
fn stand_at_end(last: u64, end: &Option<Advance>) -> Standing
    requires last { last < cycle_bound }
    requires gap { gap_of_end end.now < gap_bound }
    ensures { result ≡ standing_after last end.now }
{
    let stop = match end {
        Some(Advance::Ended(gap)) | Some(Advance::Spent(gap)) => last + *gap,
        Some(Advance::Step(_)) | None => last,
    };
    Standing {
        stop,
        ended: matches!(end, Some(Advance::Ended(_))),
        spent: matches!(end, Some(Advance::Spent(_))),
        determined: false,
    }
}

/// Whether a module has a first step without a cycle whose cycle is determined.
#[tactic(auto, unfolding(time_engine::specs::Cycles::determined))]
fn is_determined(engine: &Engine, owner: u32, limit: u64) -> bool
    requires owner { owner < length engine.now.graph.lanes }
    requires accesses { HasAccesses engine.now.graph.lanes engine.now.fifos.channels }
    requires places { HasPlaces engine.now.graph.lanes engine.now.fifos.channels }
    requires limit { limit ≤ cycle_bound }
    ensures { result ≡ is_some (determined engine.now.graph.lanes engine.now.fifos.channels owner) }
{
    match candidate(&engine.graph, &engine.fifos, owner, limit) {
        Candidate::At(_) => true,
        Candidate::Beyond => true,
        Candidate::Waits(_) => false,
        Candidate::Nothing => false,
    }
}

/// The verdict, from the standing of all modules together.
fn verdict_for(limit: u64, all: Standing) -> Verdict
    ensures { result ≡ verdict_for limit all }
{
    if all.determined || limit < all.stop {
        Verdict::Cycles(limit)
    } else if all.ended {
        Verdict::Done(all.stop)
    } else if all.spent {
        Verdict::Ops(all.stop)
    } else {
        Verdict::Deadlock(all.stop)
    }
}
