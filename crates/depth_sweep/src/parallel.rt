//! The sweep over a grid of depths, on several threads.
ghost use Rattle.std.specs.Prelude.{◌≡◌, ◌≤◌, ◌<◌, ◌↔◌, [], Err, length, map, slice_index_or, IfOk};
ghost use Rattle.depth_sweep.specs.{grid, grid_of, most_points, point, IsShape, fifos};

use crate::fifos::{fifo_count, fifos};
use crate::point::{Point, simulate};
use crate::shape::{GridShape, depths_at, shape_of};
use flow_design::CheckedPlan;
use flow_word::{List, OutOfMemory};
use rayon::prelude::*;
use std::alloc::{AllocError, Global};
use std::thread::Threads;
use thiserror::Error;

/// Why a sweep gives no points.
#[derive(Clone, Copy, Debug, PartialEq, Eq, Error)]
pub enum SweepFault {
    /// The grid has more than 4,096 lists.
    #[error("the grid has more than 4096 lists")]
    TooWide,
    /// Memory ran out.
    #[error("out of memory")]
    OutOfMemory,
}

impl From<OutOfMemory> for SweepFault {
    ghost use Rattle.depth_sweep.specs.declared.parallel.SweepFault.TheVariants.{OutOfMemory as no_memory};

    ghost from_gives = { λ _ fault. fault ≡ no_memory };

    fn from(_: OutOfMemory) -> Self {
        SweepFault::OutOfMemory
    }
}

/// The points of a plan's grid: all lists of depths from `lo` to `hi` for its FIFOs, in lexicographic order, each with the verdict
/// of the plan with these depths. Each point is simulated by itself, on several threads where these can be started, and the points
/// are the same for any number of threads.
///
/// `TooWide` where the grid has more than 4,096 lists; then nothing is simulated. `OutOfMemory` where memory ran out.
pub fn sweep<R: Threads + Sync>(
    rt: &R,
    alloc: Global,
    plan: &CheckedPlan,
    lo: u64,
    hi: u64,
) -> Result<List<Point>, SweepFault>
    requires least { 1 ≤ lo }
    requires ordered { lo ≤ hi }
    requires most { hi ≤ 64 }
    ensures points { IfOk result (λ points. points ≡ map (point plan.now) (grid_of plan.now lo hi)) }
    ensures too_wide { (result ≡ Err SweepFault.TooWide) ↔ (most_points < length (grid_of plan.now lo hi)) }
{
    match shape_of(lo, hi, fifo_count(plan)) {
        Some(shape) => Ok(simulate_all(rt, alloc, plan, shape)?),
        None => Err(SweepFault::TooWide),
    }
}

/// The points of a grid of this shape, in order. `OutOfMemory` where memory ran out.
fn simulate_all<R: Threads + Sync>(
    rt: &R,
    alloc: Global,
    plan: &CheckedPlan,
    shape: GridShape,
) -> Result<List<Point>, OutOfMemory>
    requires shape { IsShape shape }
    requires fifos { shape.fifos ≡ length (fifos plan.now) }
    ensures { IfOk result (λ points. points ≡ map (point plan.now) (grid shape.lo shape.hi shape.fifos)) }
{
    let channels = fifos(alloc, plan)?;
    let points = map_numbers(rt, alloc, plan, channels.as_slice(), shape)??;
    listed(alloc, points)
}

/// The points of a grid of this shape, in order, found by a parallel map over their numbers. `OutOfMemory` where memory ran out.
fn map_numbers<R: Threads + Sync>(
    rt: &R,
    alloc: Global,
    plan: &CheckedPlan,
    channels: &[u32],
    shape: GridShape,
) -> Result<Result<Vec<Point>, OutOfMemory>, AllocError>
    requires channels { channels.now ≡ fifos plan.now }
    requires shape { IsShape shape }
    requires fifos { shape.fifos ≡ length (fifos plan.now) }
    ensures { IfOk result (λ found. IfOk found (λ points. points.items ≡ map (point plan.now) (grid shape.lo shape.hi shape.fifos))) }
{
    (0..shape.lists)
        .into_par_iter()
        .with_min_len(1)
        .map(
            move |number: u64| -> Result<Point, OutOfMemory>
                requires { (channels.now ≡ fifos plan.now) × IsShape shape
                    × (shape.fifos ≡ length (fifos plan.now)) × (number < shape.lists) }
                ensures { IfOk result (λ found. found
                    ≡ point plan.entry.now (slice_index_or (grid shape.lo shape.hi shape.fifos) number [])) }
            { point_numbered(alloc, plan, channels, &shape, number) },
        )
        .collect(rt, alloc)
}

/// The point of a grid with this number, counted from 0. `OutOfMemory` where memory ran out.
fn point_numbered(
    alloc: Global,
    plan: &CheckedPlan,
    channels: &[u32],
    shape: &GridShape,
    number: u64,
) -> Result<Point, OutOfMemory>
    requires channels { channels.now ≡ fifos plan.now }
    requires shape { IsShape shape.now }
    requires fifos { shape.now.fifos ≡ length (fifos plan.now) }
    requires number { number < shape.now.lists }
    ensures { IfOk result (λ found. found
        ≡ point plan.now (slice_index_or (grid shape.now.lo shape.now.hi shape.now.fifos) number [])) }
{
    let depths = depths_at(alloc, shape, number)?;
    simulate(alloc, plan, channels, depths)
}

/// The points as a list. `OutOfMemory` where memory ran out.
fn listed(alloc: Global, points: Vec<Point>) -> Result<List<Point>, OutOfMemory>
    ensures { IfOk result (λ list. list ≡ points.items) }
{
    let mut list = List::with_room(alloc, points.len() as u64)?;
    for point in points {
        list.push(point)?;
    }
    Ok(list)
}
