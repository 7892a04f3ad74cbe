//! The best of some points.
ghost use Rattle.std.specs.Prelude.{◌≡◌, ◌≢◌, ℕ, ◌<◌, ◌+◌, ◌⊎◌, ◌↔◌, IsTrue, length, sum, IfSome, IfNone};
ghost use Rattle.flow_design.specs.declared.report.Verdict.TheVariants.{Done};
ghost use Rattle.depth_sweep.specs.{IsBest, IsDoneAt, IsBestKept};

use crate::point::Point;
use flow_design::Verdict;

/// A point whose plan is done.
#[derive(Clone, Copy, Debug)]
pub(crate) struct Finish {
    /// The point's place in the list of points.
    place: u64,
    /// The clock in which the plan is done.
    latency: u64,
    /// The sum of the point's depths. It fits for any list that memory holds.
    total: u128,
}

/// The place of the best point. Its plan is done; no other is done in an earlier clock; of those done in that clock none has a
/// lesser sum of depths; and of those it is the first. `None` where no point is done. It takes no memory.
pub fn best(points: &[Point]) -> Option<u64>
    ensures best { IfSome result (λ place. IsBest points.now place) }
    ensures none { IfNone result ((place latency total : ℕ) → ¬ IsDoneAt points.now place latency total) }
{
    let mut kept = None;
    for place in 0..points.len() {
        kept = with_next(kept, points, place);
    }
    let best = kept?;
    Some(best.place)
}

/// The best of the points up to this place, given the best of those before it.
fn with_next(kept: Option<Finish>, points: &[Point], place: usize) -> Option<Finish>
    requires place { place < length points.now }
    requires kept { IsBestKept points.now place kept }
    ensures { IsBestKept points.now (place + 1) result }
{
    let Some(next) = finish_of(place as u64, &points[place]) else {
        return kept;
    };
    match kept {
        Some(kept) if !is_better(&next, &kept) => Some(kept),
        Some(_) | None => Some(next),
    }
}

/// The point with its latency and its sum of depths. `None` where its plan is not done.
fn finish_of(place: u64, point: &Point) -> Option<Finish>
    ensures place { IfSome result (λ finish. finish.place ≡ place) }
    ensures done { IfSome result (λ finish. point.now.verdict ≡ Done finish.latency) }
    ensures total { IfSome result (λ finish. finish.total ≡ sum point.now.depths) }
    ensures none { IfNone result ((latency : ℕ) → point.now.verdict ≢ Done latency) }
{
    match point.verdict {
        Verdict::Done(latency) => Some(Finish {
            place,
            latency,
            total: total(point.depths.as_slice()),
        }),
        Verdict::Deadlock(_) | Verdict::Cycles(_) | Verdict::Ops(_) => None,
    }
}

/// Whether `next` is done earlier than `kept`, or in the same clock with a lesser sum of depths.
fn is_better(next: &Finish, kept: &Finish) -> bool
    ensures { IsTrue result ↔ ((next.now.latency < kept.now.latency)
        ⊎ ((next.now.latency ≡ kept.now.latency) × (next.now.total < kept.now.total))) }
{
    next.latency < kept.latency || next.latency == kept.latency && next.total < kept.total
}

/// The sum of depths.
fn total(depths: &[u64]) -> u128
    ensures { result ≡ sum depths.now }
{
    let mut total = 0;
    for depth in depths {
        total += *depth as u128;
    }
    total
}
